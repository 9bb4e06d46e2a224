//! How many calls each actor took.

ghost use Rattle.std.specs.Prelude.{◌≡◌, IfOk, map};
ghost use Rattle.log_trace_text.specs.Endings.{AreCountsOf, actor_of};

use job_calls::Job;
use log_causes::{CountedCalls, counts_of};
use log_line::LogEntry;
use std::alloc::{AllocError, Global};
use trace_ends::{ActorCalls, Counts};

fn actor_of(taken: &CountedCalls) -> ActorCalls
    ensures { result ≡ actor_of taken.now }
{
    ActorCalls {
        actor: taken.number,
        calls: taken.calls,
    }
}

fn actors_of(alloc: Global, taken: &[CountedCalls]) -> Result<Vec<ActorCalls>, AllocError>
    ensures { IfOk result (λ actors. actors.items ≡ map actor_of taken.now) }
{
    let mut actors = Vec::new(alloc);
    for one in taken {
        actors.push(actor_of(one))?;
    }
    Ok(actors)
}

/// Returns how many calls each actor of the job took.
pub(crate) fn counts_for(
    alloc: Global,
    job: Job,
    entries: &[LogEntry],
) -> Result<Counts, AllocError>
    ensures { IfOk result (AreCountsOf job entries.now) }
{
    let counts = counts_of(alloc, job, entries)?;
    let tasks = actors_of(alloc, counts.tasks.as_slice())?;
    let clerks = actors_of(alloc, counts.clerks.as_slice())?;
    Ok(Counts {
        table: counts.table,
        tasks,
        clerks,
    })
}
