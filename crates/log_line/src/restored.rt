//! Restarts of a table, as lines tell them.

ghost use Rattle.std.specs.Prelude.{◌≡◌};
ghost use Rattle.log_line.specs.Calls.{numbers_of};

use grants::Kept;

/// How many grants a restored table may be ahead of its log.
pub const MOST_AHEAD: u64 = 65_536;

/// The kept values of a table that its grants change.
#[derive(Clone, Copy, Debug, PartialEq, Eq)]
pub struct KeptNumbers {
    /// The last accepted reading, in ticks; 0 before the first.
    pub last: u64,
    /// How many grants were made.
    pub granted: u64,
    /// The greatest deadline of all grants, in ticks; 0 if there was none.
    pub deadline: u64,
}

/// Why a table after the calls of a log is not restored from some values, in the order of the
/// checks.
#[derive(Clone, Copy, Debug, PartialEq, Eq)]
pub enum RestoreFault {
    /// They have fewer grants, a lower last reading or a lower deadline than the log shows: the
    /// store lost something.
    LessThanLog,
    /// They have more than [`MOST_AHEAD`] grants beyond those of the log.
    FarAhead,
    /// They are not those that the table keeps, now or after more grants at their last reading.
    NotAhead,
}

/// Returns the kept values that grants change.
pub fn numbers_of(kept: &Kept) -> KeptNumbers
    ensures { result ≡ numbers_of kept.now }
{
    KeptNumbers {
        last: kept.last,
        granted: kept.granted,
        deadline: kept.deadline,
    }
}
