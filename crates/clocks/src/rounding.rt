//! Division, rounded up.

ghost use Rattle.std.specs.Prelude.{◌≡◌, ◌+◌, ◌<◌, ◌≤◌, ◌^◌};
ghost use Rattle.clocks.specs.Rounding.{div_up};

// A number divided by another, rounded up.
pub(crate) fn div_up(number: u128, by: u128) -> u128
    requires positive { 0 < by }
    requires room { number + by ≤ 2 ^ 128 }
    ensures { result ≡ div_up number by }
{
    (number + (by - 1)) / by
}
