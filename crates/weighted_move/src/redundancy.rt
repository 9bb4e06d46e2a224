//! How many tasks may own a slice.

/// The least and the greatest number of tasks that own a slice.
#[derive(Clone, Copy, Debug)]
pub struct Redundancy {
    /// The least number.
    pub low: usize,
    /// The greatest number.
    pub high: usize,
}
