//! The kept values of a table as bytes.

ghost use Rattle.std.specs.Prelude.{◌≡◌, ◌<◌, ◌^◌, IfOk, Ok, OnOk, codes, option_map};
ghost use Rattle.serde_json.specs.Data.{put as with_member};
ghost use Rattle.serde_json.specs.View.{members_view, view};
ghost use Rattle.wire.specs.declared.numerals.Numerals.TheVariants as numeral;
ghost use Rattle.wire.specs.Assignments.{assignment_data, assignment_of};
ghost use Rattle.wire.specs.Kept.{job_term_data, job_term_of, kept_data, kept_of, or_null, policy_data, policy_of, term_or_null_at, unless_null};
ghost use Rattle.wire.specs.Refusals.{Gives};

use crate::fault::DecodeError;
use crate::message::Wire;
use crate::numerals::{Numerals, numeral_at};
use crate::object::put_numeral;
use crate::slicing::{assignment_json, assignment_law, assignment_of};
use assignment::Assignment;
use grants::{JobTerm, Kept, Policy, policy_law};
use program_io::{WrongForm, exactly, member_at, number_at, two_numbers_of};
use serde_json::{Map, Value, json, put};
use std::alloc::{AllocError, Global};

fn policy_json(alloc: Global, policy: Policy) -> Result<Value, AllocError>
    ensures { IfOk result (λ v. view v ≡ policy_data policy) }
{
    json!(in alloc; {
        "bridge": policy.bridge(),
        "guard": policy.guard(),
        "job": policy.job(),
        "numbers": policy.numbers(),
        "redundancy": [policy.low(), policy.high()],
        "skew": policy.skew()
    })
}

#[tactic(auto, unfolding(crate::specs::Kept::policy_of))]
fn policy_of(value: &Value) -> Result<Policy, WrongForm>
    ensures { result ≡ policy_of (view value.now) }
{
    exactly(
        &["bridge", "guard", "job", "numbers", "redundancy", "skew"],
        value,
    )?;
    let (low, high) = two_numbers_of(member_at("redundancy", value)?)?;
    let skew = number_at("skew", value)?;
    let guard = number_at("guard", value)?;
    let bridge = number_at("bridge", value)?;
    let job = number_at("job", value)?;
    let numbers = number_at("numbers", value)?;
    match Policy::new(low, high, skew, guard, bridge, job, numbers) {
        Some(policy) => Ok(policy),
        None => Err(WrongForm),
    }
}

fn job_term_json(alloc: Global, numerals: Numerals, term: JobTerm) -> Result<Value, AllocError>
    ensures { IfOk result (λ v. view v ≡ job_term_data numerals term) }
{
    let mut map = Map::new(alloc);
    put_numeral(&mut map, alloc, numerals, "assigner", term.assigner)?;
    put_numeral(&mut map, alloc, numerals, "number", term.number)?;
    put_numeral(&mut map, alloc, numerals, "until", term.until)?;
    Ok(Value::Object(map))
}

fn term_or_null(
    alloc: Global,
    numerals: Numerals,
    term: Option<JobTerm>,
) -> Result<Value, AllocError>
    ensures { IfOk result (λ v. view v ≡ or_null (job_term_data numerals) term) }
{
    match term {
        Some(term) => job_term_json(alloc, numerals, term),
        None => Ok(Value::Null),
    }
}

#[tactic(auto, unfolding(crate::specs::Kept::job_term_of))]
fn job_term_of(numerals: Numerals, value: &Value) -> Result<JobTerm, WrongForm>
    ensures { result ≡ job_term_of numerals (view value.now) }
{
    exactly(&["assigner", "number", "until"], value)?;
    Ok(JobTerm {
        number: numeral_at(numerals, "number", value)?,
        assigner: numeral_at(numerals, "assigner", value)?,
        until: numeral_at(numerals, "until", value)?,
    })
}

// Returns the member with this name as a term of the job lease, if it is not null.
fn term_or_null_at(
    numerals: Numerals,
    name: &str,
    value: &Value,
) -> Result<Option<JobTerm>, WrongForm>
    ensures { result ≡ term_or_null_at numerals name.now (view value.now) }
{
    let term = member_at(name, value)?;
    if term.is_null() {
        return Ok(None);
    }
    Ok(Some(job_term_of(numerals, term)?))
}

/// Writes the assignment as JSON, or null if there is none.
pub fn assignment_or_null(
    alloc: Global,
    numerals: Numerals,
    assignment: Option<&Assignment>,
) -> Result<Value, AllocError>
    ensures { IfOk result (λ v. view v ≡ or_null (assignment_data numerals) (option_map (λ a. a.now) assignment.entry)) }
{
    match assignment {
        Some(assignment) => assignment_json(alloc, numerals, assignment),
        None => Ok(Value::Null),
    }
}

/// Reads an assignment, unless null is written.
pub fn unless_null(
    alloc: Global,
    numerals: Numerals,
    value: &Value,
) -> Result<Option<Assignment>, DecodeError>
    ensures { Gives result (unless_null (assignment_of numerals) (view value.now)) }
{
    if value.is_null() {
        return Ok(None);
    }
    let assignment = assignment_of(alloc, numerals, value)?;
    Ok(Some(assignment))
}

// Puts an assignment, or null, under this name.
fn put_assignment(
    map: &mut Map<String, Value>,
    alloc: Global,
    numerals: Numerals,
    name: &str,
    assignment: &Option<Assignment>,
) -> Result<(), AllocError>
    ensures { OnOk result (members_view map.new.entries
        ≡ with_member name.now (or_null (assignment_data numerals) assignment.now) (members_view map.old.entries)) }
{
    let value = assignment_or_null(alloc, numerals, assignment.as_ref())?;
    put(map, alloc, name, value)
}

fn put_policy(map: &mut Map<String, Value>, alloc: Global, policy: Policy) -> Result<(), AllocError>
    ensures { OnOk result (members_view map.new.entries
        ≡ with_member (codes "policy") (policy_data policy) (members_view map.old.entries)) }
{
    let value = policy_json(alloc, policy)?;
    put(map, alloc, "policy", value)
}

fn put_term(
    map: &mut Map<String, Value>,
    alloc: Global,
    numerals: Numerals,
    term: Option<JobTerm>,
) -> Result<(), AllocError>
    ensures { OnOk result (members_view map.new.entries
        ≡ with_member (codes "term") (or_null (job_term_data numerals) term) (members_view map.old.entries)) }
{
    let value = term_or_null(alloc, numerals, term)?;
    put(map, alloc, "term", value)
}

/// Writes the kept values as JSON.
pub fn kept_json(alloc: Global, numerals: Numerals, kept: &Kept) -> Result<Value, AllocError>
    ensures { IfOk result (λ v. view v ≡ kept_data numerals kept.now) }
{
    let mut map = Map::new(alloc);
    put_assignment(&mut map, alloc, numerals, "committed", &kept.committed)?;
    put_numeral(&mut map, alloc, numerals, "deadline", kept.deadline)?;
    put_numeral(&mut map, alloc, numerals, "granted", kept.granted)?;
    put_numeral(&mut map, alloc, numerals, "last", kept.last)?;
    put_assignment(&mut map, alloc, numerals, "pending", &kept.pending)?;
    put_policy(&mut map, alloc, kept.policy)?;
    put_term(&mut map, alloc, numerals, kept.term)?;
    Ok(Value::Object(map))
}

/// Reads kept values from JSON.
///
/// They may be those of no table: [`LeaseTable::restore`](lease_table::LeaseTable::restore) checks
/// that.
#[tactic(auto, unfolding(crate::specs::Kept::kept_of))]
pub fn kept_of(alloc: Global, numerals: Numerals, value: &Value) -> Result<Kept, DecodeError>
    ensures { Gives result (kept_of numerals (view value.now)) }
{
    exactly(
        &[
            "committed",
            "deadline",
            "granted",
            "last",
            "pending",
            "policy",
            "term",
        ],
        value,
    )?;
    let policy = policy_of(member_at("policy", value)?)?;
    let last = numeral_at(numerals, "last", value)?;
    let term = term_or_null_at(numerals, "term", value)?;
    let granted = numeral_at(numerals, "granted", value)?;
    let deadline = numeral_at(numerals, "deadline", value)?;
    let committed = unless_null(alloc, numerals, member_at("committed", value)?)?;
    let pending = unless_null(alloc, numerals, member_at("pending", value)?)?;
    Ok(Kept {
        policy,
        last,
        term,
        committed,
        pending,
        granted,
        deadline,
    })
}

// States that the numbers of a term are below 2^64.
fn term_bounds(term: &JobTerm)
    ensures number { term.now.number < 2 ^ 64 }
    ensures assigner { term.now.assigner < 2 ^ 64 }
    ensures until { term.now.until < 2 ^ 64 }
{
    let _number = term.number;
    let _assigner = term.assigner;
    let _until = term.until;
}

// States that reading what was written of an optional term gives the same.
fn term_law(term: Option<JobTerm>)
    ensures { unless_null (job_term_of numeral.Quoted) (or_null (job_term_data numeral.Quoted) term) ≡ Ok term }
{
    if let Some(term) = &term {
        term_bounds(term);
    }
}

// States that reading what was written of an optional assignment gives the same.
fn optional_law(assignment: &Option<Assignment>)
    ensures { unless_null (assignment_of numeral.Quoted) (or_null (assignment_data numeral.Quoted) assignment.now) ≡ Ok assignment.now }
{
    match assignment {
        Some(assignment) => assignment_law(assignment),
        None => {}
    }
}

// States that reading what was written of kept values gives the same values.
fn kept_law(kept: &Kept)
    ensures { kept_of numeral.Quoted (kept_data numeral.Quoted kept.now) ≡ Ok kept.now }
{
    policy_law(kept.policy);
    term_law(kept.term);
    optional_law(&kept.committed);
    optional_law(&kept.pending);
    let _last = kept.last;
    let _granted = kept.granted;
    let _deadline = kept.deadline;
}

impl Wire for Kept {
    ghost name = { codes "kept" };

    ghost data_of = { kept_data };

    ghost form = { kept_of };

    fn name() -> &'static str {
        "kept"
    }

    #[tactic(auto, using(crate::proofs::KeptValues::kept_written))]
    fn to_json(&self, alloc: Global) -> Result<Value, AllocError> {
        kept_law(self);
        kept_json(alloc, Numerals::Quoted, self)
    }

    fn of_json(alloc: Global, numerals: Numerals, value: &Value) -> Result<Kept, DecodeError> {
        kept_of(alloc, numerals, value)
    }
}
