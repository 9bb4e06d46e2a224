//! The steps on values alone.

ghost use Rattle.std.specs.Prelude.{◌≡◌, ◌∷◌, IfOk};
ghost use Rattle.world.specs.Jobs.{Job};
ghost use Rattle.world.specs.declared.step.Step.TheVariants as step;
ghost use Rattle.world.specs.Judging.{judge_reply};
ghost use Rattle.world.specs.Pasts.{Past};
ghost use Rattle.world.specs.Worlds.{Keeps, Played};

use crate::actors::of_slices;
use crate::world::World;
use assignment::{Assignment, Slice};
use machines::Trouble;
use replies::{OwnerList, Refusal, Reply};
use slice_ranges::slice_key;

impl World {
    pub(crate) fn hash(&self, key: &[u8]) -> Result<Reply, Trouble<Refusal>>
        ensures { (job : Job) (past : Past) → Keeps job past self.now
            → Played job past (step.Hash key.now) result self.now }
    {
        Ok(Reply::Key(slice_key(key)))
    }

    pub(crate) fn assign(
        &mut self,
        generation: u64,
        slices: &[Slice],
    ) -> Result<Reply, Trouble<Refusal>>
        ensures { (job : Job) (past : Past) → Keeps job past self.old
            → Played job past (step.Assign generation slices.now) result self.new }
    {
        match Assignment::build(self.alloc, generation, slices) {
            Ok(draft) => {
                self.draft = Some(draft);
                Ok(Reply::Assigned {
                    generation,
                    slices: slices.len(),
                })
            }
            Err(error) => Err(of_slices(error)),
        }
    }

    pub(crate) fn owners(&self, key: &[u8]) -> Result<Reply, Trouble<Refusal>>
        ensures { (job : Job) (past : Past) → Keeps job past self.now
            → Played job past (step.Owners key.now) result self.now }
    {
        match &self.draft {
            Some(draft) => Ok(Reply::Owners(OwnerList::new(draft.owners(slice_key(key))))),
            None => Err(Trouble::Refused(Refusal::NoDraft)),
        }
    }
}
