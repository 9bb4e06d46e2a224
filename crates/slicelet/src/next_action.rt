//! What a task does next about its leases.

ghost use Rattle.std.specs.Prelude.{◌≡◌, option_map};
ghost use Rattle.slicelet.specs.States.{held_lease, held_in};
ghost use Rattle.slicelet.specs.NextActions.{wanted_kind, wanted_generation, other_kind, is_live_of, next_action};

use crate::slicelet::Slicelet;
use grants::Phase;
use lease_rule::Kind;

/// What a task does next about its leases.
#[derive(Clone, Copy, Debug, PartialEq, Eq)]
pub enum TaskAction {
    /// Start a life.
    Start,
    /// Ask the lease table for a grant, which is of this kind in the table's phase.
    Ask(Kind),
    /// Release the lease of this kind, and send the note to the table.
    GiveUp(Kind),
    /// Nothing.
    Rest,
}

// The lease that a task wants in a phase.
fn wanted(phase: Phase) -> (Kind, u64)
    ensures { (result.0 ≡ wanted_kind phase) × (result.1 ≡ wanted_generation phase) }
{
    match phase {
        Phase::Steady(committed) => (Kind::Guard, committed),
        Phase::Bridging(_, proposed) => (Kind::Bridge, proposed),
    }
}

fn other(kind: Kind) -> Kind
    ensures { result ≡ other_kind kind }
{
    match kind {
        Kind::Guard => Kind::Bridge,
        Kind::Bridge => Kind::Guard,
    }
}

impl Slicelet {
    /// Returns what the task does next about its leases, in a phase of the lease table.
    ///
    /// `at` is a reading of the task's clock, in ticks. In a phase the task wants one lease: a guard
    /// of the committed generation, or, while an assignment is proposed, a bridge to its generation.
    /// A lease of the other kind delays the next commit until it is given up or ends.
    ///
    /// The first case that holds decides:
    ///
    /// - the task has started no life in its current process: `Start`;
    /// - no assignment is committed or proposed: `Rest`;
    /// - the task holds no live lease of the wanted kind and generation: `Ask`;
    /// - the task holds a lease of the other kind, which may have ended: `GiveUp`;
    /// - otherwise: `Rest`.
    ///
    /// A lease that is about to end is still live. A task that must not lose its keys asks again
    /// before that, by the deadline that [`held`](Self::held) returns.
    pub fn next(&self, phase: Phase, at: u64) -> TaskAction
        ensures { result ≡ next_action self.now phase at }
    {
        let (kind, generation) = wanted(phase);
        if !self.is_up() {
            TaskAction::Start
        } else if generation == 0 {
            TaskAction::Rest
        } else if !self.has_live(kind, generation, at) {
            TaskAction::Ask(kind)
        } else if self.held(other(kind)).is_some() {
            TaskAction::GiveUp(other(kind))
        } else {
            TaskAction::Rest
        }
    }

    // Whether the task holds a lease of this kind and generation that has not ended.
    fn has_live(&self, kind: Kind, generation: u64, at: u64) -> bool
        ensures { result ≡ is_live_of generation at (held_in self.now kind) }
    {
        match self.held(kind) {
            Some(lease) => lease.generation == generation && at < lease.ends,
            None => false,
        }
    }
}
