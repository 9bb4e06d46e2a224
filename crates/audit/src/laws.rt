//! Laws about each call of an audited run. The laws of `cluster` state what holds of every run.

ghost use Rattle.std.specs.Prelude.{◌≡◌, ℕ, ◌++◌, ◌∷◌, List, Some, Ok, Err};
ghost use Rattle.lease_rule.specs.declared.answer.Ground.{Ground};
ghost use Rattle.lease_rule.specs.declared.answer.Verdict.{Verdict};
ghost use Rattle.lease_rule.specs.declared.answer.Verdict.TheVariants.{Allow, Deny};
ghost use Rattle.lease_rule.specs.declared.lease.Kind.{Kind};
ghost use Rattle.key_handle.specs.declared.handle.KeyHandle.{KeyHandle};
ghost use Rattle.slicelet.specs.Continuity.{IsContinuous, handle_on, held_by};
ghost use Rattle.job_calls.specs.Jobs.{Job};
ghost use Rattle.job_calls.specs.declared.call.ClusterCall.TheVariants as call;
ghost use Rattle.job_calls.specs.declared.reply.ClusterReply.{ClusterReply};
ghost use Rattle.job_calls.specs.declared.reply.ClusterReply.TheVariants as reply;
ghost use Rattle.cluster.specs.Pasts.{Past, readings, task_calls, history};
ghost use Rattle.cluster.specs.Timing.{IsTimely};
ghost use Rattle.cluster.specs.Replies.{covers, rule_in};
ghost use Rattle.cluster.specs.Runs.{IsRun};
ghost use Rattle.cluster.specs.Headline.{MayServe};
ghost use Rattle.audit.specs.OneRun.{Turn, IsPastOf};
ghost use Rattle.audit.specs.Points.{IsPoint};

/// States that entries and records make one run and no other.
///
/// So the reply to each entry is known too. Each entry and record is an event of the run, after
/// those before it. What a record's caller was told is the cluster's reply there.
pub fn points_law()
    ensures one { (job : Job) (run : List Turn) (past other : Past) → IsPastOf run past → IsRun job past
        → IsPastOf run other → IsRun job other → past ≡ other }
    ensures point { (job : Job) (before later : List Turn) (turn : Turn) (past : Past) → IsPastOf (before ++ turn ∷ later) past → IsRun job past
        → (earlier : Past) × (answer : ClusterReply) × IsPoint job past before turn earlier answer }
{}

/// States that what callers were told in an audited run follows the written rule.
///
/// - A verdict told on a `serve` is that of the written rule on the calls that the task accepted
///   before.
/// - A handle was told if that rule allows the key. Otherwise the caller was told why it does not.
/// - That a handle is continuous, or that it is broken, was told if those calls say so.
pub fn answers_law()
    ensures rule { (job : Job) (past earlier : Past) (before : List Turn) (turn : Turn) (answer : ClusterReply) (task key at : ℕ) (verdict : Verdict)
        → IsPoint job past before turn earlier answer → turn.call ≡ call.Serve task key at → turn.told ≡ Some (reply.Verdict verdict)
        → verdict ≡ rule_in earlier task key at }
    ensures hold { (job : Job) (past earlier : Past) (before : List Turn) (turn : Turn) (answer : ClusterReply) (task key at : ℕ) (handle : KeyHandle)
        → IsPoint job past before turn earlier answer → turn.call ≡ call.Hold task key at → turn.told ≡ Some (reply.Holding handle)
        → held_by (rule_in earlier task key at) (handle_on key (history task earlier)) ≡ Ok handle }
    ensures denied { (job : Job) (past earlier : Past) (before : List Turn) (turn : Turn) (answer : ClusterReply) (task key at : ℕ) (why : Ground)
        → IsPoint job past before turn earlier answer → turn.call ≡ call.Hold task key at → turn.told ≡ Some (reply.Verdict (Deny why))
        → held_by (rule_in earlier task key at) (handle_on key (history task earlier)) ≡ Err why }
    ensures continuous { (job : Job) (past earlier : Past) (before : List Turn) (turn : Turn) (answer : ClusterReply) (task at : ℕ) (handle : KeyHandle)
        → IsPoint job past before turn earlier answer → turn.call ≡ call.Check task handle at → turn.told ≡ Some reply.Continuous
        → IsContinuous (covers earlier handle.key) (task_calls task earlier) handle at }
    ensures broken { (job : Job) (past earlier : Past) (before : List Turn) (turn : Turn) (answer : ClusterReply) (task at : ℕ) (handle : KeyHandle)
        → IsPoint job past before turn earlier answer → turn.call ≡ call.Check task handle at → turn.told ≡ Some reply.Broken
        → IsContinuous (covers earlier handle.key) (task_calls task earlier) handle at → ⊥ }
{}

/// States that each task that served a key in a timely run owned it.
///
/// If the clocks of the run were timely and a caller was told that a task serves a key, the task
/// might serve it at that point, so it owned the key in the committed assignment.
pub fn served_law()
    ensures { (job : Job) (past earlier : Past) (before : List Turn) (turn : Turn) (answer : ClusterReply) (task key at generation : ℕ) (kind : Kind)
        → IsTimely job.policy.skew (readings past) → IsPoint job past before turn earlier answer
        → turn.call ≡ call.Serve task key at → turn.told ≡ Some (reply.Verdict (Allow kind generation))
        → MayServe job earlier task key }
{}
