//! Why a clock refuses a call.

/// Why a clock refuses a call. The clock is unchanged.
#[derive(Clone, Copy, Debug, PartialEq, Eq)]
pub enum ClockRefusal {
    /// The local reading is below one that the clock was given before.
    LocalClockBack,
    /// A sample is said to be sent later than its answer came.
    SentAhead,
    /// The clock has no sample.
    NoSample,
    /// The newest sample was sent too long ago.
    TooOld,
    /// The value would not be below 2^64.
    TooLarge,
    /// The table's clock is still below the reading that was kept.
    NotYet {
        /// The reading that was kept.
        until: u64,
    },
}
