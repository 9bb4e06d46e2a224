//! What a place holds.

ghost use Rattle.std.specs.Prelude.{◌≡◌};
ghost use Rattle.std.specs.Thread.{IsSync};
ghost use Rattle.hourstable_c.specs.contracts.held.Held.{the_row};

use assigner::Assigner;
use clerk::Clerk;
use lease_table::LeaseTable;
use load_ledger::LoadBook;
use slicelet::Slicelet;
use wire::JobName;

/// What a place holds.
#[derive(Drop)]
pub enum Held {
    /// Nothing.
    Nothing,
    /// A slicelet of a job.
    Slicelet(JobName, Slicelet),
    /// A clerk of a job.
    Clerk(JobName, Clerk),
    /// The table of a job.
    Table(JobName, LeaseTable),
    /// An assigner.
    Assigner(Assigner),
    /// A load book of a job.
    LoadBook(JobName, LoadBook),
}

impl Held {
    /// Destroys what is held, and holds `value` instead.
    pub fn put(&mut self, value: Held)
        ensures { self.new ≡ value }
    {
        *self = value;
    }

    /// Threads may read what is held through a `&` at the same time.
    pub fn sharing_law()
        ensures { IsSync the_row }
    {}
}
