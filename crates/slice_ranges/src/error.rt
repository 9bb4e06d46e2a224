//! Why pairs do not form a set of keys.

/// Why a list of pairs does not form a set of slice keys.
///
/// The first pair with a fault decides. If that pair has several faults, the first in the order
/// below is returned.
#[derive(Clone, Copy, Debug, PartialEq, Eq)]
pub enum RangesError {
    /// The pair starts before the end of the pair before it.
    Unsorted,
    /// The pair has no key: its end is not above its start.
    Empty,
    /// The pair ends above [`KEYS`](crate::KEYS), past the last key.
    PastEnd,
}
