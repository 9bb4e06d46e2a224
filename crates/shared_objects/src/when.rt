//! The readings of calls and queries.

ghost use Rattle.std.specs.Prelude.{◌≡◌};
ghost use Rattle.shared_objects.specs.Actors.{reading_at};

// The reading in a call that is replaced by the one that is given as [`When`].
pub(crate) const REPLACED: u64 = 0;

/// The reading of a call or a query: a given one, or its own ticket.
#[derive(Clone, Copy, Debug, PartialEq, Eq)]
pub enum When {
    /// This reading, in ticks, of the clock of the table or of the task that is called.
    At(u64),
    /// The ticket that is drawn for the call or query.
    AtTicket,
}

impl When {
    /// Returns the reading, in ticks, of a call or query that drew a ticket.
    pub fn reading(self, ticket: u64) -> u64
        ensures { result ≡ reading_at self ticket }
    {
        match self {
            When::At(reading) => reading,
            When::AtTicket => ticket,
        }
    }
}
