//! Why a load is not counted.

/// Why a load is not counted, in the order of the checks.
#[derive(Clone, Copy, Debug, PartialEq, Eq)]
pub enum LoadError {
    /// The weight is 0 or above [`MOST_WEIGHT`](crate::MOST_WEIGHT).
    WeightRange,
    /// The total would be above [`MOST_TOTAL`](crate::MOST_TOTAL).
    TotalRange,
}
