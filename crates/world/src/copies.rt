//! Copies of steps, of questions and of a world.

ghost use Rattle.std.specs.Prelude.{◌≡◌, IfOk};
ghost use Rattle.world.specs.Jobs.{Job};
ghost use Rattle.world.specs.Pasts.{Past};
ghost use Rattle.world.specs.Worlds.{LeadsTo};

use crate::judge::Question;
use crate::step::Step;
use crate::world::World;
use assignment::Assignment;
use load_ledger::LoadShare;
use machines::Duplicate;
use std::alloc::{AllocError, Global};

impl Duplicate for Question {
    fn copy(&self) -> Result<Question, AllocError> {
        Ok(Question {
            up: self.up,
            last: self.last,
            leases: self.leases.copy()?,
            key: self.key.copy()?,
            at: self.at,
        })
    }
}

impl Duplicate for Step {
    fn copy(&self) -> Result<Step, AllocError> {
        Ok(match self {
            Step::Hash { key } => Step::Hash { key: key.copy()? },
            Step::Assign { generation, slices } => Step::Assign {
                generation: *generation,
                slices: slices.copy()?,
            },
            Step::Owners { key } => Step::Owners { key: key.copy()? },
            Step::Judge { question } => Step::Judge {
                question: question.copy()?,
            },
            Step::Take { assigner, at } => Step::Take {
                assigner: *assigner,
                at: *at,
            },
            Step::Renew { assigner, at } => Step::Renew {
                assigner: *assigner,
                at: *at,
            },
            Step::Propose {
                assigner,
                generation,
                slices,
                at,
            } => Step::Propose {
                assigner: *assigner,
                generation: *generation,
                slices: slices.copy()?,
                at: *at,
            },
            Step::Commit { assigner, at } => Step::Commit {
                assigner: *assigner,
                at: *at,
            },
            Step::Phase => Step::Phase,
            Step::Rows => Step::Rows,
            Step::Grant { task, life, at } => Step::Grant {
                task: *task,
                life: *life,
                at: *at,
            },
            Step::Free { note, at } => Step::Free {
                note: *note,
                at: *at,
            },
            Step::Lose => Step::Lose,
            Step::Start { task, life, at } => Step::Start {
                task: *task,
                life: *life,
                at: *at,
            },
            Step::Hear { task, number, at } => Step::Hear {
                task: *task,
                number: *number,
                at: *at,
            },
            Step::Release { task, kind, at } => Step::Release {
                task: *task,
                kind: *kind,
                at: *at,
            },
            Step::Serve { task, key, at } => Step::Serve {
                task: *task,
                key: key.copy()?,
                at: *at,
            },
            Step::Hold { task, key, at } => Step::Hold {
                task: *task,
                key: key.copy()?,
                at: *at,
            },
            Step::Check { task, handle, at } => Step::Check {
                task: *task,
                handle: *handle,
                at: *at,
            },
            Step::Learn { clerk, generation } => Step::Learn {
                clerk: *clerk,
                generation: *generation,
            },
            Step::Look { clerk, key } => Step::Look {
                clerk: *clerk,
                key: key.copy()?,
            },
            Step::Forget { clerk } => Step::Forget { clerk: *clerk },
            Step::Load { task, key, weight } => Step::Load {
                task: *task,
                key: key.copy()?,
                weight: *weight,
            },
            Step::Gather => Step::Gather,
            Step::Plan {
                loads,
                tasks,
                bounds,
            } => Step::Plan {
                loads: loads.copy()?,
                tasks: tasks.copy(),
                bounds: *bounds,
            },
            Step::Next {
                assigner,
                at,
                wanted,
            } => Step::Next {
                assigner: *assigner,
                at: *at,
                wanted: *wanted,
            },
            Step::DropTerm { assigner } => Step::DropTerm {
                assigner: *assigner,
            },
        })
    }
}

// Copies the shares into a new vector.
fn share_copies(alloc: Global, shares: &[LoadShare]) -> Result<Vec<LoadShare>, AllocError>
    ensures { IfOk result (λ copied. copied.items ≡ shares.now) }
{
    let mut copied = Vec::with_capacity(alloc, shares.len())?;
    for share in shares {
        copied.push(share.copy()?)?;
    }
    Ok(copied)
}

// Copies the draft, if there is one.
fn draft_copy(draft: &Option<Assignment>) -> Result<Option<Assignment>, AllocError>
    ensures { IfOk result (λ copied. copied ≡ draft.now) }
{
    match draft {
        Some(draft) => Ok(Some(draft.copy()?)),
        None => Ok(None),
    }
}

impl World {
    /// Returns a copy of the world. The only error is out of memory.
    ///
    /// Every past that leads to this world also leads to the copy. Later steps of one do not change
    /// the other.
    #[tactic(auto, unfolding(crate::specs::Worlds::LeadsTo))]
    pub fn copy(&self) -> Result<Self, AllocError>
        ensures { (job : Job) (past : Past) → LeadsTo job past self.now
            → IfOk result (λ world. LeadsTo job past world) }
    {
        Ok(World {
            alloc: self.alloc,
            job: self.job,
            cluster: self.cluster.copy()?,
            draft: draft_copy(&self.draft)?,
            assigners: Vec::from_slice(self.alloc, self.assigners.as_slice())?,
            shares: share_copies(self.alloc, self.shares.as_slice())?,
            book: self.book.copy(),
        })
    }
}
