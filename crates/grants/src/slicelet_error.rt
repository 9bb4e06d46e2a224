//! Why a slicelet refuses a call.

/// Why a slicelet refuses a call; each method lists its refusals in their order.
#[derive(Clone, Copy, Debug, PartialEq, Eq)]
pub enum SliceletError {
    /// The task has not started a life.
    NotStarted,
    /// The life is not above the current one; for a `Resume`, it is below the current one.
    OldLife,
    /// The reading is below the last accepted one.
    ClockBack,
    /// The grant is for another task.
    OtherTask,
    /// The grant is for another life.
    OtherLife,
    /// The grant's number is not above the greatest number of its kind that was heard in this life.
    Old {
        /// The greatest number heard.
        heard: u64,
    },
    /// The lease has ended.
    TooLate,
    /// The task holds no lease of this kind.
    NothingHeld,
    /// The slicelet has accepted as many calls as it may in this process and accepts no more,
    /// not even a release.
    HistoryFull,
}

/// The error for a handle that the slicelet cannot have given.
///
/// The handle is of another task, of a life of an earlier process of the task, of a life above the
/// current one, or of the current life at a position above the number of calls that this process
/// accepted. A handle of life 0 is always strange.
#[derive(Clone, Copy, Debug, PartialEq, Eq)]
pub struct Stranger;
