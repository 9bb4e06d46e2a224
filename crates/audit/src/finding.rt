//! What an audit finds.

/// What is wrong at a ticket of an audited run.
#[derive(Clone, Copy, Debug, PartialEq, Eq)]
pub enum Why {
    /// Two entries or records have this ticket.
    Double,
    /// The ticket of an entry is not above that of the entry before it in its history. All tickets
    /// are distinct.
    Order,
    /// The machines refuse an entry after the entries and records with lower tickets. For example,
    /// a commit is held up by an open lease or by the table's grace after a restart.
    RefusedEntry,
    /// The machines reply to a record's call otherwise than its caller was told.
    OtherReply,
}

/// The finding of an audit: whether histories and records are one run of a job's machines.
#[derive(Clone, Copy, Debug, PartialEq, Eq)]
pub enum Audit {
    /// They are one run.
    One {
        /// How many entries and records there are.
        steps: u64,
        /// Whether the clocks were timely in the run.
        timely: bool,
    },
    /// They are not one run.
    No {
        /// The ticket at fault.
        ticket: u64,
        /// What is wrong at this ticket.
        why: Why,
    },
}
