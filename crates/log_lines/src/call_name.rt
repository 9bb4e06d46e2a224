//! The calls of which a line may be.

ghost use Rattle.std.specs.Prelude.{◌≡◌};
ghost use Rattle.log_lines.specs.CallNames.{call_named};

/// A call that may change a table.
#[derive(Clone, Copy, Debug, PartialEq, Eq)]
pub enum TableCallName {
    /// An assigner takes the job lease.
    Take,
    /// The holder of the job lease renews it.
    Renew,
    /// The holder of the job lease proposes an assignment.
    Propose,
    /// The holder of the job lease commits the proposed assignment.
    Commit,
    /// A task asks for a lease.
    Grant,
    /// A task gives leases back.
    Free,
    /// The table restarts and loses its rows.
    Lose,
}

/// A call that may change a slicelet.
#[derive(Clone, Copy, Debug, PartialEq, Eq)]
pub enum TaskCallName {
    /// The task starts a life.
    Start,
    /// The task hears a grant.
    Hear,
    /// The task releases a lease.
    Release,
}

/// A call of which a line may be.
#[derive(Clone, Copy, Debug, PartialEq, Eq)]
pub enum CallName {
    /// A call that may change the table.
    Table(TableCallName),
    /// Asks for the table's phase.
    Phase,
    /// A process of the table begins, with a restored table.
    Restore,
    /// A process of a task begins.
    Open,
    /// A call that may change a slicelet.
    Task(TaskCallName),
    /// Asks whether a task may serve a key.
    Serve,
    /// Asks a task for a handle on a key.
    Hold,
    /// Asks a task whether it has held a handle's key ever since the handle was taken.
    Check,
    /// A clerk learns an assignment.
    Learn,
    /// Asks a clerk who owns a key.
    Look,
    /// A clerk forgets its assignment.
    Forget,
    /// A task's clock takes an answer of the table.
    Sample,
}

impl CallName {
    /// Returns the call with a number, as C passes it, or `None` if there is none.
    pub fn of(number: u32) -> Option<Self>
        ensures { result ≡ call_named number }
    {
        Some(match number {
            1 => CallName::Table(TableCallName::Take),
            2 => CallName::Table(TableCallName::Renew),
            3 => CallName::Table(TableCallName::Propose),
            4 => CallName::Table(TableCallName::Commit),
            5 => CallName::Table(TableCallName::Grant),
            6 => CallName::Table(TableCallName::Free),
            7 => CallName::Table(TableCallName::Lose),
            8 => CallName::Phase,
            9 => CallName::Restore,
            10 => CallName::Open,
            11 => CallName::Task(TaskCallName::Start),
            12 => CallName::Task(TaskCallName::Hear),
            13 => CallName::Task(TaskCallName::Release),
            14 => CallName::Serve,
            15 => CallName::Hold,
            16 => CallName::Check,
            17 => CallName::Learn,
            18 => CallName::Look,
            19 => CallName::Forget,
            20 => CallName::Sample,
            _ => return None,
        })
    }
}
