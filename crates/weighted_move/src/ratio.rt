//! Ratios of gains to churns, as whole numbers.

ghost use Rattle.std.specs.Prelude.{◌≡◌, ◌<◌};
ghost use Rattle.weighted_move.specs.Ranks.{ratio_of, least_gain};

/// Returns a gain over a churn in units of 2^-64, rounded down, and at most 2^64 - 1.
pub fn ratio_of(gain: u64, churn: u64) -> u64
    requires { 0 < churn }
    ensures { result ≡ ratio_of gain churn }
{
    let ratio = gain as u128 * (1 << 64) / churn as u128;
    ratio.min(u64::MAX as u128) as u64
}

/// Returns the least gain that a move of this churn needs to keep up with a ratio.
///
/// A move with a smaller gain is behind each move of this ratio.
pub fn least_gain(ratio: u64, churn: u64) -> u64
    ensures { result ≡ least_gain ratio churn }
{
    (ratio as u128 * churn as u128 / (1 << 64)) as u64
}
