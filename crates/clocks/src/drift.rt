//! How fast the table's clock may run beside a task's.

ghost use Rattle.std.specs.Prelude.{◌≡◌, ◌<◌, ◌≤◌, ◌^◌, MatchOption, ◌↔◌, IsNone, IfSome};

use crate::rounding::div_up;

/// A bound on how much faster the table's clock may run than a task's local clock: while the local
/// clock gains `per` ticks, the table's gains at most `per + extra`, in proportion and rounded up,
/// and `grain` ticks more.
///
/// Two clocks that each keep within 100 parts in a million of true time are within `extra: 201,
/// per: 1_000_000`.
#[derive(Clone, Copy, Debug, PartialEq, Eq)]
pub struct Drift {
    /// How many ticks more the table's clock may gain.
    pub extra: u64,
    /// While the local clock gains this many ticks, at least 1.
    pub per: u64,
    /// How many ticks more the table's clock may show to have gained because clocks show whole
    /// ticks: [`TICK_GRAIN`] is enough if both are rounded down and `extra` is at most `per`.
    pub grain: u64,
    ghost positive: { 0 < per },
}

/// The grain of two clocks that are rounded down to whole ticks, for each drift of at most 1
/// (`ticks_law`).
pub const TICK_GRAIN: u64 = 2;

impl Drift {
    ghost use Rattle.clocks.specs.Drifts.{most_gain, IsDriftOf};

    /// A drift of `extra` in `per` ticks, with a grain in ticks. Returns `None` if `per` is 0.
    pub fn new(extra: u64, per: u64, grain: u64) -> Option<Self>
        ensures none { IsNone result ↔ (per ≡ 0) }
        ensures some { IfSome result (IsDriftOf extra per grain) }
    {
        if per > 0 {
            Some(Drift { extra, per, grain })
        } else {
            None
        }
    }

    // The most that the table's clock gains while the local clock gains `elapsed` ticks, without
    // the grain; `None` if that is not below 2^64.
    pub(crate) fn most_gain(self, elapsed: u64) -> Option<u64>
        ensures { MatchOption result (2 ^ 64 ≤ most_gain self elapsed) (λ most. most ≡ most_gain self elapsed) }
    {
        match self.quick_gain(elapsed) {
            Some(most) => Some(most),
            None => self.wide_gain(elapsed),
        }
    }

    // The same with a division of 64 bits; `None` also if these are too few for what is divided.
    #[inline]
    pub(crate) fn quick_gain(self, elapsed: u64) -> Option<u64>
        ensures { IfSome result (λ most. most ≡ most_gain self elapsed) }
    {
        let raised = elapsed as u128 * self.extra as u128 + (self.per - 1) as u128;
        if raised <= u64::MAX as u128 {
            elapsed.checked_add(raised as u64 / self.per)
        } else {
            None
        }
    }

    // The same with a division of 128 bits, which is slow.
    #[cold]
    fn wide_gain(self, elapsed: u64) -> Option<u64>
        ensures { MatchOption result (2 ^ 64 ≤ most_gain self elapsed) (λ most. most ≡ most_gain self elapsed) }
    {
        let beyond = div_up(elapsed as u128 * self.extra as u128, self.per as u128);
        if beyond <= u64::MAX as u128 {
            elapsed.checked_add(beyond as u64)
        } else {
            None
        }
    }
}
