//! What holds of the tokens of every run, and of the writes that a store accepts with them.

ghost use Rattle.std.specs.Prelude.{◌≡◌, ℕ, ◌+◌, ◌<◌, ◌≤◌, true, List, ◌∷◌};
ghost use Rattle.slice_ranges.specs.declared.key.TheConstants.{KEYS};
ghost use Rattle.lease_rule.specs.declared.lease.Kind.{Kind};
ghost use Rattle.grants.specs.Policies.{is_policy};
ghost use Rattle.lease_table.specs.Tables.{phase_of};
ghost use Rattle.slicelet.specs.declared.next_action.TaskAction.TheVariants.{GiveUp};
ghost use Rattle.slicelet.specs.NextActions.{next_action};
ghost use Rattle.slicelet.specs.Rules.{covers_key};
ghost use Rattle.job_calls.specs.Jobs.{Job};
ghost use Rattle.cluster.specs.Timing.{IsTimely};
ghost use Rattle.cluster.specs.Pasts.{Event, Past, readings, history, standing};
ghost use Rattle.cluster.specs.Replies.{covers};
ghost use Rattle.cluster.specs.Runs.{IsRun};
ghost use Rattle.fence.specs.Tokens.{IsUpTo};
ghost use Rattle.fence.specs.Giving.{token_in, may_give_up, carefully};
ghost use Rattle.fence.specs.Shelves.{shelf_after, accepts, AreInTurn};
ghost use Rattle.job_fence.specs.Requests.{Request, IsServed, Serves, ServesInTurn};
ghost use Rattle.job_fence.specs.Care.{IsCareful};
ghost use Rattle.job_fence.specs.Stores.{IsOfSameOrLaterOwnerIn, AreServed};
ghost use Rattle.job_fence.specs.Points.{Led};
ghost use Rattle.job_fence.specs.Examples.{HasLateGuard, HasFallingToken, HasEarlyLease, HasLateOwner, HasWideToken};

use cluster::Cluster;

/// States what the tokens are with which a run served requests.
///
/// Whatever the clocks showed, the requests for a key that were served with one generation were all
/// served by one task, the later of two requests that one task served is of the same life or a later
/// one, and all are of the run's epoch.
///
/// With timely clocks, a request for a key that was served after one by another task is of a later
/// generation, the token of a careful task for a key never falls, and no request is of a generation
/// more than one below that of an earlier request.
pub fn fencing_law()
    ensures same { (job : Job) (epoch : ℕ) (run : Past) (one other : Request) → is_policy job.policy ≡ true → IsRun job run
        → Serves job epoch run one → Serves job epoch run other → one.key ≡ other.key
        → one.token.generation ≡ other.token.generation → one.task ≡ other.task }
    ensures rising { (job : Job) (epoch : ℕ) (run : Past) (first second : Request) → is_policy job.policy ≡ true → IsRun job run
        → IsTimely job.policy.skew (readings run) → ServesInTurn job epoch run first second → first.key ≡ second.key
        → (first.task ≡ second.task → ⊥) → first.token.generation < second.token.generation }
    ensures steady { (job : Job) (epoch : ℕ) (run : Past) (first second : Request) → is_policy job.policy ≡ true → IsRun job run
        → IsTimely job.policy.skew (readings run) → IsCareful first.task run → ServesInTurn job epoch run first second
        → first.key ≡ second.key → first.task ≡ second.task → IsUpTo first.token second.token }
    ensures close { (job : Job) (epoch : ℕ) (run : Past) (first second : Request) → is_policy job.policy ≡ true → IsRun job run
        → IsTimely job.policy.skew (readings run) → ServesInTurn job epoch run first second
        → first.token.generation ≤ second.token.generation + 1 }
    ensures lives { (job : Job) (epoch : ℕ) (run : Past) (first second : Request) → IsRun job run → ServesInTurn job epoch run first second
        → first.task ≡ second.task → first.token.life ≤ second.token.life }
    ensures epochs { (job : Job) (epoch : ℕ) (run : Past) (r : Request) → Serves job epoch run r → r.token.epoch ≡ epoch }
{
    cluster::told_law();
    cluster::known_generations_law();
    cluster::sent_law();
    cluster::order_law();
    cluster::reached_law();
    lease_table::leases_law();
    lease_table::assignments_law();
    lease_table::generations_law();
    slicelet::held_law();
    slicelet::lives_law();
    slicelet::covering_lease_law();
    assignment::one_owner_law();
}

/// States what a store accepts of the writes of one key that come with tokens.
///
/// The writes were offered in any order, each as often as one likes: each is of an earlier epoch, or
/// of a request that a run served for the key in this one. Of two accepted writes of this epoch the
/// later one is of a later generation, or of the same generation, by the same task, in the same life
/// or a later one. So no write of an earlier owner is accepted after one of a later owner, and writes
/// of two owners never alternate, even if the clocks were not timely. No write of an earlier epoch
/// follows them.
///
/// With timely clocks, a careful task that a request is served to is not refused: its token is
/// accepted after any writes of requests that were served before.
pub fn owners_law()
    ensures owners { (job : Job) (epoch : ℕ) (run : Past) (key : ℕ) (offered : List Request) → is_policy job.policy ≡ true → IsRun job run
        → AreServed job epoch run key offered → AreInTurn (IsOfSameOrLaterOwnerIn epoch) (shelf_after offered).accepted }
    ensures owner { (job : Job) (epoch : ℕ) (past : Past) (e : Event) (r : Request) (offered : List Request) → is_policy job.policy ≡ true
        → IsRun job (e ∷ past) → IsTimely job.policy.skew (readings (e ∷ past)) → IsCareful r.task (e ∷ past)
        → IsServed job epoch past e r → AreServed job epoch past r.key offered → accepts (shelf_after offered).greatest r.token ≡ true }
{
    fencing_law();
    fence::store_law();
}

/// States that a task's token is the same by the keys of its leases as by the owners of the keys.
///
/// The laws over runs take what a lease covers from the assignments that the table published; a
/// slicelet takes it from the ranges in its grants.
pub fn token_law()
    ensures { (job : Job) (epoch : ℕ) (past : Past) (task key at : ℕ) → is_policy job.policy ≡ true → IsRun job past → key < KEYS
        → token_in job.policy.high (covers_key key) epoch (history task past) at
        ≡ token_in job.policy.high (covers past key) epoch (history task past) at }
{
    cluster::told_law();
    cluster::sent_law();
    lease_table::covers_law();
}

/// States that in the table's phase [`next_careful`](fence::next_careful) returns what `Slicelet::next`
/// does.
///
/// In that phase `next` tells the task to give up a bridge lease only while it holds a guard lease of
/// its generation or a later one. In a phase that the table has left, it may tell it too early.
pub fn next_law()
    ensures kept { (job : Job) (past : Past) (task at : ℕ) (kind : Kind) → is_policy job.policy ≡ true → IsRun job past
        → next_action (history task past) (phase_of (standing job.policy past)) at ≡ GiveUp kind
        → may_give_up (history task past) kind ≡ true }
    ensures same { (job : Job) (past : Past) (task at : ℕ) → is_policy job.policy ≡ true → IsRun job past
        → carefully (history task past) (next_action (history task past) (phase_of (standing job.policy past)) at)
        ≡ next_action (history task past) (phase_of (standing job.policy past)) at }
{
    cluster::told_law();
    cluster::sent_law();
    lease_table::leases_law();
    lease_table::generations_law();
}

/// States the laws of fencing tokens for every run that led to a cluster, at each of its points.
///
/// The cluster began with the run, or went on from a snapshot of which nothing that was delivered
/// since had been forgotten.
pub fn cluster_law(cluster: &Cluster)
    ensures run { (job : Job) (run : Past) → Led job run cluster.now → IsRun job run }
    ensures within { (job : Job) (run : Past) → Led job run cluster.now → is_policy job.policy ≡ true }
    ensures same { (job : Job) (epoch : ℕ) (run : Past) (one other : Request) → Led job run cluster.now
        → Serves job epoch run one → Serves job epoch run other → one.key ≡ other.key
        → one.token.generation ≡ other.token.generation → one.task ≡ other.task }
    ensures rising { (job : Job) (epoch : ℕ) (run : Past) (first second : Request) → Led job run cluster.now
        → IsTimely job.policy.skew (readings run) → ServesInTurn job epoch run first second → first.key ≡ second.key
        → (first.task ≡ second.task → ⊥) → first.token.generation < second.token.generation }
    ensures steady { (job : Job) (epoch : ℕ) (run : Past) (first second : Request) → Led job run cluster.now
        → IsTimely job.policy.skew (readings run) → IsCareful first.task run → ServesInTurn job epoch run first second
        → first.key ≡ second.key → first.task ≡ second.task → IsUpTo first.token second.token }
    ensures lives { (job : Job) (epoch : ℕ) (run : Past) (first second : Request) → Led job run cluster.now
        → ServesInTurn job epoch run first second → first.task ≡ second.task → first.token.life ≤ second.token.life }
    ensures owners { (job : Job) (epoch : ℕ) (run : Past) (key : ℕ) (offered : List Request) → Led job run cluster.now
        → AreServed job epoch run key offered → AreInTurn (IsOfSameOrLaterOwnerIn epoch) (shelf_after offered).accepted }
    ensures owner { (job : Job) (epoch : ℕ) (past : Past) (e : Event) (r : Request) (offered : List Request) → Led job (e ∷ past) cluster.now
        → IsTimely job.policy.skew (readings (e ∷ past)) → IsCareful r.task (e ∷ past)
        → IsServed job epoch past e r → AreServed job epoch past r.key offered → accepts (shelf_after offered).greatest r.token ≡ true }
{
    cluster.run_law();
    cluster::continued_law();
    fencing_law();
    owners_law();
}

/// States by worked runs what does and does not make a token fall.
///
/// With timely clocks the guard lease of the committed generation can reach a task after the bridge
/// lease of the next one: the rule then allows the key under the earlier generation, and the token
/// is still of the later one. Two careless ways make a task's token fall with timely clocks: the
/// task gives the bridge lease up before it holds a guard lease of its generation, or a lease was
/// granted for a life before the task started it. With clocks that are not timely an earlier owner
/// can serve a key after a later one: only the store's check refuses its write.
///
/// A task must not count leases that do not cover the key: with timely clocks the token of an earlier
/// owner would then be above that of a later one, whose writes the store would refuse.
pub fn examples_law()
    ensures holds { (job : Job) × HasLateGuard job }
    ensures falls { (job : Job) × HasFallingToken job }
    ensures early { (job : Job) × HasEarlyLease job }
    ensures late { (job : Job) × HasLateOwner job }
    ensures wide { (job : Job) × HasWideToken job }
{}
