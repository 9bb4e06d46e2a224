//! What an assigner does next.

use grants::Phase;

/// What an assigner sees when it decides what to do next.
#[derive(Clone, Copy, Debug, PartialEq, Eq)]
pub struct View {
    /// The assigner's reading, in ticks.
    pub reading: u64,
    /// The phase of the lease table.
    pub phase: Phase,
    /// Whether another assignment is wanted.
    pub wanted: bool,
}

/// What an assigner does next.
#[derive(Clone, Copy, Debug, PartialEq, Eq)]
pub enum Action {
    /// Take the job lease.
    Take,
    /// Renew its term.
    Renew,
    /// Commit the proposed assignment.
    Commit,
    /// Propose another assignment.
    Propose,
    /// Nothing.
    Rest,
}
