//! Replies as JSON values.

ghost use Rattle.std.specs.Prelude.{◌≡◌, IfOk};
ghost use Rattle.serde_json.specs.View.{view};
ghost use Rattle.lease_rule.specs.declared.answer.Ground.TheVariants as ground;
ghost use Rattle.lease_rule.specs.declared.answer.Verdict.TheVariants as verdict;
ghost use Rattle.grants.specs.declared.values.Phase.TheVariants as phase;
ghost use Rattle.replies.specs.declared.reply.Reply.TheVariants as reply;
ghost use Rattle.reply_values.specs.Replies.{denied_data, generation_data, granted_data, holding_data, phase_data, released_data, reply_data, row_count_data, term_data, verdict_data};
ghost use Rattle.reply_values.specs.Values.{plain_data};

use crate::lists::{numbers_json, rows_json, tasks_json};
use crate::members::{put_large, put_number, put_text};
use crate::plan::plan_json;
use crate::refusal::refusal_json;
use assigner::Action;
use clerk::Found;
use grants::{Grant, JobTerm, Phase, ReleaseNote, Row};
use key_handle::KeyHandle;
use lease_rule::{Ground, Kind, Verdict};
use replies::{Hex, OwnerList, Reply, action_word};
use serde_json::{Map, Value, json, put};
use slice_ranges::SliceKey;
use std::alloc::{AllocError, Global};
use wire::kind_word;

/// Writes a reply that has nothing but its name.
pub fn plain_json(alloc: Global, name: &str) -> Result<Value, AllocError>
    ensures { IfOk result (λ v. view v ≡ plain_data name.now) }
{
    json!(in alloc; {"reply": name})
}

fn generation_json(alloc: Global, name: &str, generation: u64) -> Result<Value, AllocError>
    ensures { IfOk result (λ v. view v ≡ generation_data name.now generation) }
{
    let mut map = Map::new(alloc);
    put_large(&mut map, alloc, "generation", generation)?;
    put_text(&mut map, alloc, "reply", name)?;
    Ok(Value::Object(map))
}

fn row_count_json(alloc: Global, name: &str, rows: u64) -> Result<Value, AllocError>
    ensures { IfOk result (λ v. view v ≡ row_count_data name.now rows) }
{
    json!(in alloc; {"reply": name, "rows": rows})
}

fn term_json(alloc: Global, name: &str, term: JobTerm) -> Result<Value, AllocError>
    ensures { IfOk result (λ v. view v ≡ term_data name.now term) }
{
    let mut map = Map::new(alloc);
    put_large(&mut map, alloc, "number", term.number)?;
    put_text(&mut map, alloc, "reply", name)?;
    put_large(&mut map, alloc, "until", term.until)?;
    Ok(Value::Object(map))
}

fn not_owned_json(alloc: Global, generation: u64) -> Result<Value, AllocError>
    ensures { IfOk result (λ v. view v ≡ denied_data (ground.NotOwned generation)) }
{
    let mut map = Map::new(alloc);
    put_text(&mut map, alloc, "denied", "not-owned")?;
    put_large(&mut map, alloc, "generation", generation)?;
    Ok(Value::Object(map))
}

fn denied_json(alloc: Global, ground: Ground) -> Result<Value, AllocError>
    ensures { IfOk result (λ v. view v ≡ denied_data ground) }
{
    match ground {
        Ground::Down => json!(in alloc; {"denied": "down"}),
        Ground::ClockBack => json!(in alloc; {"denied": "clock-back"}),
        Ground::Ended => json!(in alloc; {"denied": "ended"}),
        Ground::NotOwned { generation } => not_owned_json(alloc, generation),
        Ground::NoLease => json!(in alloc; {"denied": "no-lease"}),
    }
}

fn served_json(alloc: Global, kind: Kind, generation: u64) -> Result<Value, AllocError>
    ensures { IfOk result (λ v. view v ≡ verdict_data (verdict.Allow kind generation)) }
{
    let mut map = Map::new(alloc);
    put_large(&mut map, alloc, "generation", generation)?;
    put_text(&mut map, alloc, "kind", kind_word(kind))?;
    put_text(&mut map, alloc, "reply", "served")?;
    Ok(Value::Object(map))
}

fn verdict_json(alloc: Global, verdict: Verdict) -> Result<Value, AllocError>
    ensures { IfOk result (λ v. view v ≡ verdict_data verdict) }
{
    match verdict {
        Verdict::Allow { kind, generation } => served_json(alloc, kind, generation),
        Verdict::Deny(ground) => denied_json(alloc, ground),
    }
}

fn steady_json(alloc: Global, generation: u64) -> Result<Value, AllocError>
    ensures { IfOk result (λ v. view v ≡ phase_data (phase.Steady generation)) }
{
    let mut map = Map::new(alloc);
    put_large(&mut map, alloc, "generation", generation)?;
    put_text(&mut map, alloc, "phase", "steady")?;
    put_text(&mut map, alloc, "reply", "phase")?;
    Ok(Value::Object(map))
}

fn bridging_json(alloc: Global, from: u64, to: u64) -> Result<Value, AllocError>
    ensures { IfOk result (λ v. view v ≡ phase_data (phase.Bridging from to)) }
{
    let mut map = Map::new(alloc);
    put_large(&mut map, alloc, "from", from)?;
    put_text(&mut map, alloc, "phase", "bridging")?;
    put_text(&mut map, alloc, "reply", "phase")?;
    put_large(&mut map, alloc, "to", to)?;
    Ok(Value::Object(map))
}

fn phase_json(alloc: Global, phase: Phase) -> Result<Value, AllocError>
    ensures { IfOk result (λ v. view v ≡ phase_data phase) }
{
    match phase {
        Phase::Steady(generation) => steady_json(alloc, generation),
        Phase::Bridging(from, to) => bridging_json(alloc, from, to),
    }
}

fn key_json(alloc: Global, key: SliceKey) -> Result<Value, AllocError>
    ensures { IfOk result (λ v. view v ≡ reply_data (reply.Key key)) }
{
    let key = format!(in alloc; "{}", Hex(key.value()))?;
    let mut map = Map::new(alloc);
    put_text(&mut map, alloc, "key", key.as_str())?;
    put_text(&mut map, alloc, "reply", "key")?;
    Ok(Value::Object(map))
}

fn assigned_json(alloc: Global, generation: u64, slices: usize) -> Result<Value, AllocError>
    ensures { IfOk result (λ v. view v ≡ reply_data (reply.Assigned generation slices)) }
{
    let mut map = Map::new(alloc);
    put_large(&mut map, alloc, "generation", generation)?;
    put_text(&mut map, alloc, "reply", "assigned")?;
    put_number(&mut map, alloc, "slices", slices as u64)?;
    Ok(Value::Object(map))
}

fn owners_json(alloc: Global, owners: &OwnerList) -> Result<Value, AllocError>
    ensures { IfOk result (λ v. view v ≡ reply_data (reply.Owners owners.now)) }
{
    let owners = tasks_json(alloc, owners.as_slice())?;
    let mut map = Map::new(alloc);
    put(&mut map, alloc, "owners", owners)?;
    put_text(&mut map, alloc, "reply", "owners")?;
    Ok(Value::Object(map))
}

fn found_json(alloc: Global, found: &Found) -> Result<Value, AllocError>
    ensures { IfOk result (λ v. view v ≡ reply_data (reply.Found found.now)) }
{
    let owners = tasks_json(alloc, found.owners.as_slice())?;
    let mut map = Map::new(alloc);
    put_large(&mut map, alloc, "generation", found.generation)?;
    put(&mut map, alloc, "owners", owners)?;
    put_text(&mut map, alloc, "reply", "found")?;
    Ok(Value::Object(map))
}

fn open_rows_json(alloc: Global, rows: &[Row]) -> Result<Value, AllocError>
    ensures { IfOk result (λ v. view v ≡ reply_data (reply.Rows rows.now)) }
{
    let rows = rows_json(alloc, rows)?;
    let mut map = Map::new(alloc);
    put_text(&mut map, alloc, "reply", "rows")?;
    put(&mut map, alloc, "rows", rows)?;
    Ok(Value::Object(map))
}

fn granted_json(alloc: Global, grant: &Grant) -> Result<Value, AllocError>
    ensures { IfOk result (λ v. view v ≡ granted_data grant.now) }
{
    let mut map = Map::new(alloc);
    put_large(&mut map, alloc, "ends", grant.lease.ends)?;
    put_large(&mut map, alloc, "generation", grant.lease.generation)?;
    put_text(&mut map, alloc, "kind", kind_word(grant.lease.kind))?;
    put_large(&mut map, alloc, "number", grant.number)?;
    put_text(&mut map, alloc, "reply", "grant")?;
    put_large(&mut map, alloc, "until", grant.table_ends)?;
    Ok(Value::Object(map))
}

fn started_json(alloc: Global, life: u32) -> Result<Value, AllocError>
    ensures { IfOk result (λ v. view v ≡ reply_data (reply.Started life)) }
{
    json!(in alloc; {"life": life, "reply": "started"})
}

fn heard_json(alloc: Global, number: u64) -> Result<Value, AllocError>
    ensures { IfOk result (λ v. view v ≡ reply_data (reply.Heard number)) }
{
    let mut map = Map::new(alloc);
    put_large(&mut map, alloc, "number", number)?;
    put_text(&mut map, alloc, "reply", "heard")?;
    Ok(Value::Object(map))
}

fn released_json(alloc: Global, number: u64, note: ReleaseNote) -> Result<Value, AllocError>
    ensures { IfOk result (λ v. view v ≡ released_data number note) }
{
    let mut map = Map::new(alloc);
    put_number(&mut map, alloc, "life", note.life as u64)?;
    put_number(&mut map, alloc, "note", number)?;
    put_large(&mut map, alloc, "number", note.number)?;
    put_text(&mut map, alloc, "reply", "released")?;
    Ok(Value::Object(map))
}

fn holding_json(alloc: Global, number: u64, handle: KeyHandle) -> Result<Value, AllocError>
    ensures { IfOk result (λ v. view v ≡ holding_data number handle) }
{
    let mut map = Map::new(alloc);
    put_number(&mut map, alloc, "handle", number)?;
    put_number(&mut map, alloc, "life", handle.life as u64)?;
    put_large(&mut map, alloc, "position", handle.position)?;
    put_text(&mut map, alloc, "reply", "handle")?;
    Ok(Value::Object(map))
}

fn recorded_json(alloc: Global, total: u64) -> Result<Value, AllocError>
    ensures { IfOk result (λ v. view v ≡ reply_data (reply.Recorded total)) }
{
    json!(in alloc; {"reply": "recorded", "total": total})
}

fn gathered_json(alloc: Global, loads: &[u64], totals: &[u64]) -> Result<Value, AllocError>
    ensures { IfOk result (λ v. view v ≡ reply_data (reply.Gathered loads.now totals.now)) }
{
    let loads = numbers_json(alloc, loads)?;
    let totals = numbers_json(alloc, totals)?;
    let mut map = Map::new(alloc);
    put(&mut map, alloc, "loads", loads)?;
    put_text(&mut map, alloc, "reply", "loads")?;
    put(&mut map, alloc, "totals", totals)?;
    Ok(Value::Object(map))
}

fn next_json(alloc: Global, action: Action) -> Result<Value, AllocError>
    ensures { IfOk result (λ v. view v ≡ reply_data (reply.Next action)) }
{
    json!(in alloc; {"next": action_word(action), "reply": "next"})
}

/// Converts a reply to JSON: the first word of its line as `reply`, or `denied` or `refused` with
/// the word for why, and what the line names. The only error is out of memory.
///
/// A note and a handle have what callers that number none are told, too. `NoMemory` is the reply of
/// no trace.
pub fn reply_json(alloc: Global, reply: &Reply) -> Result<Value, AllocError>
    ensures { IfOk result (λ v. view v ≡ reply_data reply.now) }
{
    match reply {
        Reply::Key(key) => key_json(alloc, *key),
        Reply::Assigned { generation, slices } => assigned_json(alloc, *generation, *slices),
        Reply::Owners(owners) => owners_json(alloc, owners),
        Reply::Verdict(verdict) => verdict_json(alloc, *verdict),
        Reply::Term(term) => term_json(alloc, "term", *term),
        Reply::Renewed(term) => term_json(alloc, "renewed", *term),
        Reply::Proposed(generation) => generation_json(alloc, "proposed", *generation),
        Reply::Committed(generation) => generation_json(alloc, "committed", *generation),
        Reply::Phase(phase) => phase_json(alloc, *phase),
        Reply::Rows(rows) => open_rows_json(alloc, rows.as_slice()),
        Reply::Granted(grant) => granted_json(alloc, grant),
        Reply::Freed(rows) => row_count_json(alloc, "freed", *rows),
        Reply::Lost(rows) => row_count_json(alloc, "lost", *rows),
        Reply::Started(life) => started_json(alloc, *life),
        Reply::Heard(number) => heard_json(alloc, *number),
        Reply::Released { number, note } => released_json(alloc, *number, *note),
        Reply::Holding { number, handle } => holding_json(alloc, *number, *handle),
        Reply::Continuous => plain_json(alloc, "continuous"),
        Reply::Broken => plain_json(alloc, "broken"),
        Reply::Learnt(generation) => generation_json(alloc, "learnt", *generation),
        Reply::Found(found) => found_json(alloc, found),
        Reply::Forgotten => plain_json(alloc, "forgotten"),
        Reply::Recorded(total) => recorded_json(alloc, *total),
        Reply::Gathered { loads, totals } => {
            gathered_json(alloc, loads.as_slice(), totals.as_slice())
        }
        Reply::Planned(plan) => plan_json(alloc, plan),
        Reply::Next(action) => next_json(alloc, *action),
        Reply::TermDropped => plain_json(alloc, "restarted"),
        Reply::Refused(refusal) => refusal_json(alloc, *refusal),
        Reply::NoMemory => plain_json(alloc, "no-memory"),
    }
}
