//! The laws of fencing tokens over the steps of a script, whose keys are bytes.
#![tactic(auto)]

ghost use Rattle.std.specs.Prelude.{◌≡◌, ℕ, ◌<◌, ◌≤◌, true, List, ◌∷◌, ◌++◌};
ghost use Rattle.slice_ranges.specs.Hash.{slice_key};
ghost use Rattle.fence.specs.Tokens.{IsUpTo};
ghost use Rattle.fence.specs.Requests.{Request as CallRequest};
ghost use Rattle.fence.specs.Shelves.{shelf_after, accepts, AreInTurn};
ghost use Rattle.job_fence.specs.Care.{IsCareful};
ghost use Rattle.job_fence.specs.Stores.{IsOfSameOrLaterOwnerIn};
ghost use Rattle.world.specs.Jobs.{Job};
ghost use Rattle.world.specs.Pasts.{Event, Past, steps_of, IsTimely};
ghost use Rattle.world.specs.Calls.{calls_in};
ghost use Rattle.world.specs.Worlds.{LeadsTo};
ghost use Rattle.world_fence.specs.Requests.{Request, IsServed, Serves, ServesInTurn, AreServed};

use world::World;

/// States the laws of fencing tokens for the steps that led to a world, at each point of them.
///
/// Whatever the clocks showed, the requests for a key that were served with one generation were all
/// served by one task, and the later of two requests that one task served is of the same life or a
/// later one. Of two writes of this epoch that a store accepted, the later one is of a later
/// generation, or of the same one by the same task, in the same life or a later one; no write of an
/// earlier epoch follows them.
///
/// With timely clocks, a request for a key that was served after one by another task is of a later
/// generation, the token of a careful task for a key never falls, and a careful task that a request
/// is served to is not refused.
///
/// Keys of one hash are one key here.
pub fn world_law(world: &World)
    ensures same { (job : Job) (epoch : ℕ) (later run : Past) (one other : Request) → LeadsTo job (later ++ run) world.now
        → Serves job epoch run one → Serves job epoch run other → slice_key one.key ≡ slice_key other.key
        → one.token.generation ≡ other.token.generation → one.task ≡ other.task }
    ensures rising { (job : Job) (epoch : ℕ) (later run : Past) (first second : Request) → LeadsTo job (later ++ run) world.now
        → IsTimely job.policy.skew (steps_of run) → ServesInTurn job epoch run first second → slice_key first.key ≡ slice_key second.key
        → (first.task ≡ second.task → ⊥) → first.token.generation < second.token.generation }
    ensures steady { (job : Job) (epoch : ℕ) (later run : Past) (first second : Request) → LeadsTo job (later ++ run) world.now
        → IsTimely job.policy.skew (steps_of run) → IsCareful first.task (calls_in job run) → ServesInTurn job epoch run first second
        → slice_key first.key ≡ slice_key second.key → first.task ≡ second.task → IsUpTo first.token second.token }
    ensures lives { (job : Job) (epoch : ℕ) (later run : Past) (first second : Request) → LeadsTo job (later ++ run) world.now
        → ServesInTurn job epoch run first second → first.task ≡ second.task → first.token.life ≤ second.token.life }
    ensures owners { (job : Job) (epoch : ℕ) (later run : Past) (key : List ℕ) (offered : List CallRequest) → LeadsTo job (later ++ run) world.now
        → AreServed job epoch run key offered → AreInTurn (IsOfSameOrLaterOwnerIn epoch) (shelf_after offered).accepted }
    ensures owner { (job : Job) (epoch : ℕ) (later past : Past) (e : Event) (r : Request) (offered : List CallRequest)
        → LeadsTo job (later ++ e ∷ past) world.now → IsTimely job.policy.skew (steps_of (e ∷ past)) → IsCareful r.task (calls_in job (e ∷ past))
        → IsServed job epoch past e r → AreServed job epoch past r.key offered → accepts (shelf_after offered).greatest r.token ≡ true }
{
    world.run_law();
    world::calls_law();
    job_fence::fencing_law();
    job_fence::owners_law();
}
