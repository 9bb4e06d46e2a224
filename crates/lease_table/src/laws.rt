//! Laws that hold after every list of calls that a lease table answered.

ghost use Rattle.std.specs.Prelude.{◌≡◌, ℕ, ◌+◌, ◌≤◌, ◌<◌, ◌&&◌, ◌⊎◌, ◌↔◌, List, [], ◌∷◌, ◌++◌, Some, None, Ok, Err, true, is_ok, is_some, slice_get, Contains, AllPairs};
ghost use Rattle.slice_ranges.specs.Sets.{has};
ghost use Rattle.lease_rule.specs.declared.lease.Kind.TheVariants.{Guard, Bridge};
ghost use Rattle.assignment.specs.Slices.{Slicing};
ghost use Rattle.assignment.specs.Owners.{owns};
ghost use Rattle.grants.specs.declared.table_call.TableCall.{TableCall};
ghost use Rattle.grants.specs.declared.table_call.TableCall.TheVariants as call;
ghost use Rattle.grants.specs.declared.table_call.TableReply.{TableReply};
ghost use Rattle.grants.specs.declared.table_call.TableReply.TheVariants.{Term};
ghost use Rattle.grants.specs.declared.table_error.TableError.{TableError};
ghost use Rattle.grants.specs.declared.table_error.TableError.TheVariants.{Grace, Held};
ghost use Rattle.grants.specs.declared.values.Grant.{Grant};
ghost use Rattle.grants.specs.declared.values.JobTerm.{JobTerm};
ghost use Rattle.grants.specs.declared.values.Row.{Row};
ghost use Rattle.grants.specs.Policies.{Terms, is_policy};
ghost use Rattle.lease_table.specs.Tables.{Standing, opening};
ghost use Rattle.grants.specs.JobTerms.{last_number};
ghost use Rattle.grants.specs.Assignments.{generation_of, slices_of};
ghost use Rattle.lease_table.specs.Calls.{AnsweredTableCall, table_step, standing_after, LeadsTo, reading_after, last_reading, last_term, committed_in, pending_in, grants_sent, deadline_in, grace_in};
ghost use Rattle.machines.specs.Calls.{LeadsOn, answered_call};
ghost use Rattle.lease_table.specs.Runs.{IsRun, commits_in, proposed_at, restarted_at};
ghost use Rattle.grants.specs.KeptValues.{longest_term, kept_checks, Covers};
ghost use Rattle.lease_table.specs.Generations.{assignment_in, published_in, newest_generation, covers_by_owners, HasFewOwners};
ghost use Rattle.lease_table.specs.OpenRows.{IsSent, IsFreed, IsLost, IsOut, IsOpen, HoldsUp, IsHeldUp, grant_numbered};
ghost use Rattle.grants.specs.Rows.{row_of};
ghost use Rattle.lease_table.specs.Steps.{standing_after_restart, held_up, commit_step, guard_of, bridge_of};
ghost use Rattle.machines.specs.Refusals.{first_of};
ghost use Rattle.grants.specs.declared.kept.Kept.{Kept};
ghost use Rattle.lease_table.specs.KeptValues.{kept_of, restored_from, crashed, IsKeptAhead};
ghost use Rattle.lease_table.specs.Lives.{Happening, Answered, table_after, IsLife, IsRunOf, IsOneRun};
ghost use Rattle.lease_table.specs.JobTerms.{takes_in, number_passed, HoldsJob, IsGiven};

use grants::READINGS;
use slice_ranges::KEYS;

/// States that the state and replies of a table are those defined over its list of calls.
///
/// The list may be any list of calls that the table answered. The reply to the next call is that of
/// the table's step from the state after the list.
pub fn standing_law()
    ensures start { (policy : Terms) → standing_after policy [] ≡ opening policy }
    ensures next { (policy : Terms) (past : List AnsweredTableCall) (call : TableCall) → is_policy policy ≡ true
        → LeadsOn (LeadsTo policy) past (standing_after policy past) call (table_step (standing_after policy past) call) }
{}

/// States that generations are numbered by commits.
///
/// The committed generation is the number of commits, the proposed generation is the next one, and
/// the assignment of a generation has the number of this generation.
pub fn generations_law()
    ensures committed { (policy : Terms) (past : List AnsweredTableCall) → IsRun policy past
        → generation_of (committed_in past) ≡ commits_in past }
    ensures pending { (policy : Terms) (past : List AnsweredTableCall) (slicing : Slicing) → IsRun policy past
        → pending_in past ≡ Some slicing → slicing.generation ≡ commits_in past + 1 }
    ensures named { (policy : Terms) (past : List AnsweredTableCall) (generation : ℕ) (slicing : Slicing) → IsRun policy past
        → assignment_in generation past ≡ Some slicing → slicing.generation ≡ generation }
    ensures grows { (later past : List AnsweredTableCall) → newest_generation past ≤ newest_generation (later ++ past) }
{}

/// States that each generation up to the newest has one assignment, which never changes.
///
/// It is the assignment of the accepted commit with the number of the generation, or the proposed
/// assignment while it is not committed. No slice of it has more owners than the job allows.
pub fn assignments_law()
    ensures stays { (policy : Terms) (later past : List AnsweredTableCall) (generation : ℕ) → IsRun policy (later ++ past)
        → generation ≤ newest_generation past → assignment_in generation (later ++ past) ≡ assignment_in generation past }
    ensures published { (past : List AnsweredTableCall) (generation : ℕ)
        → generation ≤ commits_in past → assignment_in generation past ≡ published_in generation past }
    ensures committed { (past : List AnsweredTableCall) → assignment_in (commits_in past) past ≡ committed_in past }
    ensures proposed { (past : List AnsweredTableCall) → assignment_in (commits_in past + 1) past ≡ pending_in past }
    ensures few { (policy : Terms) (past : List AnsweredTableCall) (generation : ℕ) → IsRun policy past
        → HasFewOwners policy (assignment_in generation past) }
{}

/// States that grants are numbered 1, 2, and so on in the order in which they were sent.
///
/// Each grant that was sent is therefore found by its number.
pub fn numbers_law()
    ensures place { (policy : Terms) (past : List AnsweredTableCall) (place : ℕ) → IsRun policy past
        → grant_numbered (place + 1) (grants_sent past) ≡ slice_get (grants_sent past) place }
    ensures sent { (policy : Terms) (past : List AnsweredTableCall) (grant : Grant) → IsRun policy past
        → IsSent past grant → grant_numbered grant.number (grants_sent past) ≡ Some grant }
    ensures found { (past : List AnsweredTableCall) (number : ℕ) (grant : Grant)
        → grant_numbered number (grants_sent past) ≡ Some grant → IsSent past grant × (grant.number ≡ number) }
{}

/// States the generation of a grant that was sent, and when the grant ends.
///
/// Its generation is at most the newest one; that of a guard lease is at most the committed one,
/// and a lease of the generation after the committed one is a bridge lease. The lease ends by the
/// skew before its row, in ticks. The row ends at most the longest term of a task lease after the
/// last accepted reading.
pub fn leases_law()
    ensures generation { (policy : Terms) (past : List AnsweredTableCall) (grant : Grant) → is_policy policy ≡ true → IsRun policy past
        → IsSent past grant → grant.lease.generation ≤ newest_generation past }
    ensures guard { (policy : Terms) (past : List AnsweredTableCall) (grant : Grant) → is_policy policy ≡ true → IsRun policy past
        → IsSent past grant → grant.lease.kind ≡ Guard → grant.lease.generation ≤ commits_in past }
    ensures bridge { (policy : Terms) (past : List AnsweredTableCall) (grant : Grant) → is_policy policy ≡ true → IsRun policy past
        → IsSent past grant → grant.lease.generation ≡ commits_in past + 1 → grant.lease.kind ≡ Bridge }
    ensures skew { (policy : Terms) (past : List AnsweredTableCall) (grant : Grant) → is_policy policy ≡ true → IsRun policy past
        → IsSent past grant → grant.lease.ends + policy.skew ≡ grant.table_ends }
    ensures ends { (policy : Terms) (past : List AnsweredTableCall) (grant : Grant) → is_policy policy ≡ true → IsRun policy past
        → IsSent past grant → grant.table_ends ≤ last_reading past + longest_term policy }
{}

/// States which keys the lease of a grant covers.
///
/// A guard lease covers exactly the keys that its task owns in the committed assignment. A bridge
/// lease covers exactly the keys that the task owns in both the committed and the proposed
/// assignment. The same holds for every grant that was sent, with the assignments of its
/// generations.
pub fn covers_law()
    ensures guard { (t : Standing) (task life at key : ℕ) → key < KEYS
        → has (guard_of t task life at).lease.ranges key ≡ owns (slices_of t.committed) key task }
    ensures bridge { (t : Standing) (next : Slicing) (task life at key : ℕ) → key < KEYS
        → has (bridge_of t next task life at).lease.ranges key
        ≡ (owns (slices_of t.committed) key task && owns next.slices key task) }
    ensures sent { (policy : Terms) (past : List AnsweredTableCall) (grant : Grant) (key : ℕ) → is_policy policy ≡ true → IsRun policy past
        → IsSent past grant → key < KEYS → has grant.lease.ranges key ≡ covers_by_owners past key grant }
{}

/// States that the table's rows are those of the grants that are open at its last reading.
///
/// The rows are in the order of the grants. A grant that was sent has a row, or has ended, or was
/// freed, or lost its row in a restart. A grant that has neither ended nor been freed is of the
/// committed generation or a later one, even if its row was lost.
pub fn rows_law()
    ensures listed { (policy : Terms) (past : List AnsweredTableCall) (row : Row) → IsRun policy past
        → Contains (standing_after policy past).rows row
        ↔ ((grant : Grant) × IsOpen past (last_reading past) grant × (row ≡ row_of grant)) }
    ensures ordered { (policy : Terms) (past : List AnsweredTableCall) → IsRun policy past
        → AllPairs (λ first second. first.number < second.number) (standing_after policy past).rows }
    ensures sent { (policy : Terms) (past : List AnsweredTableCall) (grant : Grant) → IsRun policy past → IsSent past grant
        → Contains (standing_after policy past).rows (row_of grant)
        ⊎ ((grant.table_ends ≤ last_reading past) ⊎ (IsFreed past grant ⊎ IsLost past grant)) }
    ensures generation { (policy : Terms) (past : List AnsweredTableCall) (grant : Grant) → IsRun policy past
        → IsOut past (last_reading past) grant → commits_in past ≤ grant.lease.generation }
{}

/// States that no commit is accepted while a lease whose row was lost may not have ended.
///
/// The grace is the greatest deadline given before the last restart, in ticks. Each grant whose row
/// was lost in a restart ends at the grace or before. A commit that is refused with `Grace` has a
/// reading below the grace, and a commit is accepted only at the grace or later, when all these
/// grants have ended. The grace is at most the longest term of a task lease after the last accepted
/// reading before that restart.
pub fn grace_law()
    ensures covers { (past : List AnsweredTableCall) (grant : Grant) → IsLost past grant → grant.table_ends ≤ grace_in past }
    ensures greatest { (past : List AnsweredTableCall) (grant : Grant) → IsSent past grant → grant.table_ends ≤ deadline_in past }
    ensures given { (past : List AnsweredTableCall) → (deadline_in past ≡ 0) ⊎ ((grant : Grant) × IsSent past grant × (grant.table_ends ≡ deadline_in past)) }
    ensures bound { (policy : Terms) (past : List AnsweredTableCall) → is_policy policy ≡ true → IsRun policy past
        → grace_in past ≤ restarted_at past + longest_term policy }
    ensures refused { (policy : Terms) (past : List AnsweredTableCall) (number at until : ℕ) → is_policy policy ≡ true → IsRun policy past
        → commit_step (standing_after policy past) number at ≡ Err (Grace until)
        → (until ≡ grace_in past) × (at < until) × (at < restarted_at past + longest_term policy) }
    ensures accepted { (policy : Terms) (past : List AnsweredTableCall) (number at : ℕ) (reply : TableReply)
        → IsRun policy (answered_call (call.Commit number at) (Ok reply) ∷ past) → grace_in past ≤ at }
{}

/// States exactly when a commit is held up, and which grant the refusal names.
///
/// A commit is held up exactly if, at its reading, a row of a sent grant of the committed
/// generation or an older one is open. The refusal names the grant with the lowest number among
/// those that hold it up. Under a running term, with an assignment proposed, a commit is accepted
/// exactly if nothing holds it up and the grace is over. Once it is accepted, every grant of the
/// generation before it or an older one has ended or was freed, even if its row was lost.
pub fn held_law()
    ensures held { (policy : Terms) (past : List AnsweredTableCall) (at : ℕ) → IsRun policy past → last_reading past ≤ at
        → (is_some (held_up (standing_after policy past) at) ≡ true) ↔ IsHeldUp past at }
    ensures lowest { (policy : Terms) (past : List AnsweredTableCall) (at : ℕ) (refusal : TableError) → IsRun policy past → last_reading past ≤ at
        → held_up (standing_after policy past) at ≡ Some refusal
        → (grant : Grant) × HoldsUp past at grant × (refusal ≡ Held grant.task grant.lease.kind grant.number)
        × ((other : Grant) → HoldsUp past at other → grant.number ≤ other.number) }
    ensures exactly { (policy : Terms) (past : List AnsweredTableCall) (number at : ℕ) → IsRun policy past → last_reading past ≤ at → at < READINGS
        → HoldsJob past number at → is_some (pending_in past) ≡ true
        → (is_ok (commit_step (standing_after policy past) number at) ≡ true) ↔ ((grace_in past ≤ at) × (IsHeldUp past at → ⊥)) }
    ensures cleared { (policy : Terms) (past : List AnsweredTableCall) (number at : ℕ) (reply : TableReply) (grant : Grant)
        → IsRun policy (answered_call (call.Commit number at) (Ok reply) ∷ past) → IsSent past grant
        → grant.lease.generation ≤ commits_in past → (grant.table_ends ≤ at) ⊎ IsFreed past grant }
{}

/// States that no commit is held up longer than the longest task-lease term after its proposal.
///
/// From the reading of the proposal plus that term on, in ticks, nothing holds it up.
pub fn bound_law()
    ensures { (policy : Terms) (past : List AnsweredTableCall) (next : Slicing) (at : ℕ)
        → is_policy policy ≡ true → IsRun policy past → pending_in past ≡ Some next
        → proposed_at past + longest_term policy ≤ at → held_up (standing_after policy past) at ≡ None }
{}

/// States that the terms of the job lease running at a reading belong to one assigner.
///
/// Terms are numbered 1, 2, and so on in the order in which they were taken, and each ends one job
/// term after its take or its last renewal, in ticks. An accepted renewal, proposal or commit
/// passed the number of the last term given, before the end of that term. An accepted take came
/// when every term given before had ended. So all terms that run at a reading, from the last
/// accepted one on, are one term of one assigner.
pub fn terms_law()
    ensures number { (policy : Terms) (past : List AnsweredTableCall) → IsRun policy past → last_number (last_term past) ≡ takes_in past }
    ensures taken { (policy : Terms) (past : List AnsweredTableCall) (assigner at : ℕ) (reply : TableReply)
        → IsRun policy (answered_call (call.JobTake assigner at) (Ok reply) ∷ past)
        → reply ≡ Term (record { number = takes_in past + 1; assigner = assigner; until = at + policy.job }) }
    ensures renewed { (policy : Terms) (past : List AnsweredTableCall) (number at : ℕ) (reply : TableReply) (term : JobTerm)
        → IsRun policy (answered_call (call.JobRenew number at) (Ok reply) ∷ past) → last_term past ≡ Some term
        → reply ≡ Term (record term { until = at + policy.job }) }
    ensures given { (past : List AnsweredTableCall) (term : JobTerm) → last_term past ≡ Some term → IsGiven past term }
    ensures held { (policy : Terms) (past : List AnsweredTableCall) (asked : TableCall) (reply : TableReply) (number : ℕ)
        → IsRun policy (answered_call asked (Ok reply) ∷ past) → number_passed asked ≡ Some number
        → HoldsJob past number (reading_after asked (last_reading past)) }
    ensures single { (policy : Terms) (past : List AnsweredTableCall) (assigner at : ℕ) (reply : TableReply) (term : JobTerm)
        → IsRun policy (answered_call (call.JobTake assigner at) (Ok reply) ∷ past) → IsGiven past term → term.until ≤ at }
    ensures one { (policy : Terms) (past : List AnsweredTableCall) (at : ℕ) (term other : JobTerm) → IsRun policy past → last_reading past ≤ at
        → IsGiven past term → IsGiven past other → at < term.until → at < other.until
        → (term.number ≡ other.number) × (term.assigner ≡ other.assigner) }
{}

/// States that the values a table keeps restore it, as a restart leaves it.
///
/// No check refuses values that a table of the policy kept after any calls. The table restored from
/// them is the one after these calls and one more, `Restart`, and the calls with the restart are
/// again a run. So all laws of this crate hold of the calls before a crash and after it as of one
/// table. A restored table keeps the values that it was restored from.
pub fn kept_law()
    ensures taken { (policy : Terms) (past : List AnsweredTableCall) → is_policy policy ≡ true → IsRun policy past
        → first_of (kept_checks policy (kept_of (standing_after policy past))) ≡ None }
    ensures restart { (t : Standing) → restored_from (kept_of t) ≡ standing_after_restart t }
    ensures run { (policy : Terms) (past : List AnsweredTableCall) → IsRun policy past → IsRun policy (crashed past) }
    ensures leads { (policy : Terms) (past : List AnsweredTableCall)
        → LeadsTo policy (crashed past) (restored_from (kept_of (standing_after policy past))) }
    ensures again { (kept : Kept) → kept_of (restored_from kept) ≡ kept }
{}

/// States that values saved ahead of a table are those that it keeps after some grants to nobody.
///
/// So the table restored from them is the one after its calls, these grants and a restart.
pub fn ahead_law()
    ensures { (policy : Terms) (past : List AnsweredTableCall) (saved : Kept) → IsRun policy past
        → Covers (kept_of (standing_after policy past)) saved → IsKeptAhead policy past saved }
{}

/// States that a table with any number of crashes at any moments is one run of one table.
///
/// `life` is what happened to the table, newest first: a call was answered, or a process ended and
/// the table was restored from what was saved, which covered the kept values of the table before.
/// A call that was not saved when its process ended, and whose reply was not handed out, is not in
/// it. Then each call of each process, with its reply, is in one run that leads to the table as it
/// stands now, so all laws of this crate hold of the replies of all processes together. What was
/// saved is never refused.
pub fn lives_law()
    ensures run { (policy : Terms) (life : List Happening) → is_policy policy ≡ true
        → IsLife policy life → IsOneRun policy life }
    ensures replies { (life : List Happening) (run : List AnsweredTableCall) (e : AnsweredTableCall)
        → IsRunOf life run → Contains life (Answered e) → Contains run e }
    ensures taken { (policy : Terms) (life : List Happening) (saved : Kept) → is_policy policy ≡ true
        → IsLife policy life → Covers (kept_of (table_after policy life)) saved
        → first_of (kept_checks policy saved) ≡ None }
{}
