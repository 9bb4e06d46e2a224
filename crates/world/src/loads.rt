//! The steps of loads.

ghost use Rattle.std.specs.Prelude.{◌≡◌, ◌≤◌, ◌∷◌, [], map, IfOk};
ghost use Rattle.std.specs.List.{range_with_len};
ghost use Rattle.std.specs.Vec.{vec_capacity};
ghost use Rattle.machines.specs.Answers.{trouble_of};
ghost use Rattle.machines.specs.Refusals.{first_of};
ghost use Rattle.load_ledger.specs.Books.{gather_checks, task_total};
ghost use Rattle.world.specs.Jobs.{Job};
ghost use Rattle.replies.specs.declared.reply.Refusal.TheVariants as refusal;
ghost use Rattle.world.specs.declared.step.Step.TheVariants as step;
ghost use Rattle.world.specs.Troubles.{of_layer};
ghost use Rattle.world.specs.Pasts.{Past};
ghost use Rattle.cluster.specs.Clusters.{AreActors};
ghost use Rattle.world.specs.Worlds.{Keeps, Played};

use crate::actors::{of_load, place_of};
use crate::world::World;
use assignment::TaskId;
use job_calls::Job;
use load_ledger::{LoadBook, LoadShare};
use machines::{Listed, Trouble};
use replies::{Refusal, Reply};
use slice_ranges::slice_key;
use std::alloc::{AllocError, Global};
use std::mem;

/// Returns the share of each task before its first record.
pub fn shares_of(alloc: Global, job: Job) -> Result<Vec<LoadShare>, AllocError>
    ensures { IfOk result (λ shares. AreActors (λ n. record { task = n; records = [] }) job.tasks shares.items) }
{
    let mut shares = Vec::new(alloc);
    for place in 0..job.tasks() {
        shares.push(LoadShare::new(alloc, TaskId::new(place + 1).unwrap()))?;
    }
    Ok(shares)
}

// Adds the total of each task of a job in a book.
fn add_totals(totals: &mut Vec<u64>, job: Job, book: &LoadBook)
    requires empty { totals.old.items ≡ [] }
    requires room { job.tasks ≤ vec_capacity totals.old }
    ensures { totals.new.items ≡ map (task_total book.now) (range_with_len 1 job.tasks) }
{
    for place in 0..job.tasks() {
        totals.push_reserved(book.total(TaskId::new(place + 1).unwrap()));
    }
}

impl World {
    pub(crate) fn load(
        &mut self,
        task: u64,
        key: &[u8],
        weight: u64,
    ) -> Result<Reply, Trouble<Refusal>>
        ensures { (job : Job) (past : Past) → Keeps job past self.old
            → Played job past (step.Load task key.now weight) result self.new }
    {
        let place = place_of(task, self.shares.as_slice())?;
        match self.shares[place].add(slice_key(key), weight) {
            Ok(total) => Ok(Reply::Recorded(total)),
            Err(error) => Err(of_load(error)),
        }
    }

    pub(crate) fn gather(&mut self) -> Result<Reply, Trouble<Refusal>>
        ensures { (job : Job) (past : Past) → Keeps job past self.old
            → Played job past step.Gather result self.new }
    {
        load_ledger::totals_law();
        let Some(draft) = &self.draft else {
            return Err(Trouble::Refused(Refusal::NoDraft));
        };
        let Ok((fresh, mut totals)) = room_for_gather(self.alloc, self.job) else {
            return Err(self.ungathered());
        };
        let shares = Listed::from_vec(mem::replace(&mut self.shares, fresh));
        match self.book.gather(self.alloc, shares, draft) {
            Ok(loads) => {
                add_totals(&mut totals, self.job, &self.book);
                Ok(Reply::Gathered {
                    loads,
                    totals: Listed::from_vec(totals),
                })
            }
            Err(ungathered) => {
                self.shares = ungathered.shares.into_vec();
                Err(of_load(ungathered.why))
            }
        }
    }

    // Returns why nothing is gathered when memory runs out.
    fn ungathered(&self) -> Trouble<Refusal>
        ensures { result ≡ of_layer refusal.Load (trouble_of (first_of (gather_checks self.now.shares.items self.now.book))) }
    {
        match self.book.gather_refusal(self.shares.as_slice()) {
            Some(why) => Trouble::Refused(Refusal::Load(why)),
            None => Trouble::NoMemory,
        }
    }
}

// Returns the shares that a gather starts anew, and room for its totals.
fn room_for_gather(alloc: Global, job: Job) -> Result<(Vec<LoadShare>, Vec<u64>), AllocError>
    ensures { IfOk result (λ room. AreActors (λ n. record { task = n; records = [] }) job.tasks room.0.items
        × (room.1.items ≡ []) × (job.tasks ≤ vec_capacity room.1)) }
{
    let fresh = shares_of(alloc, job)?;
    let totals = Vec::with_capacity(alloc, job.tasks() as usize)?;
    Ok((fresh, totals))
}
