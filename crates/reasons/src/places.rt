//! The places of the calls that tasks accepted.

ghost use Rattle.std.specs.Prelude.{◌≡◌, ◌∷◌, ◌+◌, [], ℕ, List, Option, Some, None, IfOk, OnOk, OnErr, option_map, if◌then◌else◌};
ghost use Rattle.machines.specs.Numbers.{is_within};
ghost use Rattle.lease_rule.specs.declared.lease.Kind.TheVariants.{Guard, Bridge};
ghost use Rattle.cluster.specs.Pasts.{event, is_accepted};
ghost use Rattle.reasons.specs.Placed.{Placed, ArePlaces, is_hearing, places_of, place_of_call, with_place};
ghost use Rattle.reasons.specs.internals.Placing.{no_places, heard_after, places_after};

use cluster::place_of;
use grants::SliceletCall;
use job_calls::{ClusterCall, ClusterReply};
use lease_rule::Kind;
use machines::Listed;
use std::alloc::{AllocError, Global};

/// Where a task heard the grants of its leases.
#[derive(Clone, Copy, Debug)]
pub struct HeardPlaces {
    /// The place of the last accepted `hear` of a guard lease; `None` if there was none.
    pub guard: Option<u64>,
    /// The place of the last accepted `hear` of a bridge lease; `None` if there was none.
    pub bridge: Option<u64>,
}

/// The places of the calls that a task accepted.
#[derive(Debug, Drop)]
pub struct TaskPlaces {
    /// Where the task heard the grants of its leases.
    pub heard: HeardPlaces,
    /// The places of the calls that its process accepted, in order.
    pub calls: Listed<u64>,
}

/// The places of the calls that the tasks of a job accepted.
///
/// A place is a number by which the caller finds a call again.
#[derive(Drop)]
pub struct CallPlaces {
    pub(crate) alloc: Global,
    pub(crate) tasks: Vec<TaskPlaces>,
}

// Returns the places of a task before its first call.
fn no_places(alloc: Global) -> TaskPlaces
    ensures { result ≡ no_places }
{
    TaskPlaces {
        heard: HeardPlaces {
            guard: None,
            bridge: None,
        },
        calls: Listed::new(alloc),
    }
}

// Returns where grants were heard after an accepted call at `place`.
fn heard_after(heard: HeardPlaces, call: &SliceletCall, place: u64) -> HeardPlaces
    ensures { result ≡ heard_after call.now place heard }
{
    let SliceletCall::Hear { grant, .. } = call else {
        return heard;
    };
    match grant.lease.kind {
        Kind::Guard => HeardPlaces {
            guard: Some(place),
            bridge: heard.bridge,
        },
        Kind::Bridge => HeardPlaces {
            guard: heard.guard,
            bridge: Some(place),
        },
    }
}

// Whether a reply accepts its call.
fn is_accepted(reply: &ClusterReply) -> bool
    ensures { result ≡ is_accepted reply.now }
{
    !matches!(reply, ClusterReply::Refused(_))
}

impl TaskPlaces {
    // Adds an accepted call at `place`. Out of memory changes nothing.
    fn add(&mut self, alloc: Global, call: &SliceletCall, place: u64) -> Result<(), AllocError>
        ensures ok { OnOk result (self.new ≡ places_after call.now place self.old) }
        ensures err { OnErr result (self.new ≡ self.old) }
    {
        match call {
            SliceletCall::Resume { .. } => self.calls = Listed::new(alloc),
            SliceletCall::Start { .. } | SliceletCall::Hear { .. } | SliceletCall::Release { .. } =>
                self.calls.push(place)?,
        }
        self.heard = heard_after(self.heard, call, place);
        Ok(())
    }

    /// Returns the place of the call with this number among those that the process accepted, which
    /// are `count`; `None` if the call has no place.
    pub fn of_call(&self, call: u64, count: u64) -> Option<u64>
        ensures { result ≡ place_of_call call count self.now.calls }
    {
        let places = self.calls.as_slice();
        let before = count.saturating_sub(places.len() as u64);
        if call == 0 || call <= before {
            return None;
        }
        places.get((call - before - 1) as usize).copied()
    }
}

impl CallPlaces {
    /// Creates the places of the calls of so many tasks, before the first call.
    pub fn new(alloc: Global, tasks: u64) -> Result<Self, AllocError>
        ensures { IfOk result (λ places. ArePlaces tasks [] places) }
    {
        let mut places = Vec::new(alloc);
        for _task in 0..tasks {
            places.push(no_places(alloc))?;
        }
        Ok(CallPlaces {
            alloc,
            tasks: places,
        })
    }

    /// Adds the next call, which has this reply, at `place`.
    ///
    /// The only error is out of memory, which changes nothing.
    pub fn add(
        &mut self,
        place: u64,
        call: &ClusterCall,
        reply: &ClusterReply,
    ) -> Result<(), AllocError>
        ensures ok { (many : ℕ) (placed : List Placed) → ArePlaces many placed self.old
            → OnOk result (ArePlaces many (record { place = place; event = event call.now reply.now } ∷ placed) self.new) }
        ensures err { (many : ℕ) (placed : List Placed) → ArePlaces many placed self.old → OnErr result (ArePlaces many placed self.new) }
    {
        let ClusterCall::Task { task, call } = call else {
            return Ok(());
        };
        if !is_accepted(reply) {
            return Ok(());
        }
        let Some(index) = place_of(*task, self.tasks.as_slice()) else {
            return Ok(());
        };
        self.tasks[index].add(self.alloc, call, place)
    }

    /// Returns the places of the calls of a task; `None` if there is no task with this number.
    pub fn of(&self, task: u64) -> Option<&TaskPlaces>
        ensures { (many : ℕ) (placed : List Placed) → ArePlaces many placed self.now
            → option_map (λ places. places.now) result ≡ (if is_within task many then Some (places_of task placed) else None) }
    {
        let Some(index) = place_of(task, self.tasks.as_slice()) else {
            return None;
        };
        Some(&self.tasks[index])
    }
}
