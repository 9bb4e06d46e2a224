//! The first line of a trace.

ghost use Rattle.std.specs.Prelude.{◌≡◌, List, ℕ, IfOk, OnOk, map, option_map};
ghost use Rattle.serde_json.specs.Data.{string};
ghost use Rattle.serde_json.specs.View.{members_view, view};
ghost use Rattle.wire.specs.Objects.{list_data};
ghost use Rattle.trace_ends.specs.Heads.{begun, job_data, log_line_data, logs_head_data, logs_members, redundancy_data, script_head_data, script_members, with_key, with_torn};
ghost use Rattle.reason_values.specs.Lines.{line_text};
ghost use Rattle.reply_values.specs.Values.{large_data};

use crate::line::object_line;
use job_calls::Job;
use reason_values::LogLine;
use reply_values::{large_json, put_if};
use serde_json::{Map, Value, json, put};
use slice_ranges::SliceKey;
use std::alloc::{AllocError, Global};

/// The version of the traces that this crate writes.
pub const TRACE_VERSION: u64 = 1;

// Writes how many tasks own a slice: one number, or the least and the greatest.
fn redundancy_json(alloc: Global, low: u64, high: u64) -> Result<Value, AllocError>
    ensures { IfOk result (λ v. view v ≡ redundancy_data low high) }
{
    if low == high {
        Ok(Value::from(low))
    } else {
        json!(in alloc; [low, high])
    }
}

fn job_json(alloc: Global, job: Job) -> Result<Value, AllocError>
    ensures { IfOk result (λ v. view v ≡ job_data job) }
{
    let policy = job.policy();
    let redundancy = redundancy_json(alloc, policy.low(), policy.high())?;
    json!(in alloc; {
        "assigners": job.assigners(),
        "bridge": policy.bridge(),
        "clerks": job.clerks(),
        "guard": policy.guard(),
        "job": policy.job(),
        "numbers": policy.numbers(),
        "redundancy": redundancy,
        "skew": policy.skew(),
        "tasks": job.tasks()
    })
}

// Puts the version, what the trace is of, and the job into an empty map.
fn begun(alloc: Global, of: &str, job: Job) -> Result<Map<String, Value>, AllocError>
    ensures { IfOk result (λ map. members_view map.entries ≡ begun of.now job) }
{
    let mut map = Map::new(alloc);
    put(&mut map, alloc, "trace", Value::from(TRACE_VERSION))?;
    put(&mut map, alloc, "of", Value::try_from_str(alloc, of)?)?;
    put(&mut map, alloc, "job", job_json(alloc, job)?)?;
    Ok(map)
}

fn slice_key_json(alloc: Global, slice_key: Option<SliceKey>) -> Result<Option<Value>, AllocError>
    ensures { IfOk result (λ v. option_map view v ≡ option_map large_data slice_key) }
{
    match slice_key {
        Some(key) => Ok(Some(large_json(alloc, key.value())?)),
        None => Ok(None),
    }
}

fn text_of(alloc: Global, key: Option<&str>) -> Result<Option<Value>, AllocError>
    ensures { IfOk result (λ v. option_map view v ≡ option_map string (option_map (λ k. k.now) key.entry)) }
{
    match key {
        Some(key) => Ok(Some(Value::try_from_str(alloc, key)?)),
        None => Ok(None),
    }
}

// Puts the key whose stretches follow, and its text if it was given as one.
fn put_key(
    map: &mut Map<String, Value>,
    alloc: Global,
    slice_key: Option<SliceKey>,
    key: Option<&str>,
) -> Result<(), AllocError>
    ensures { OnOk result (members_view map.new.entries
        ≡ with_key slice_key (option_map (λ k. k.now) key.entry) (members_view map.old.entries)) }
{
    put_if(map, alloc, "key", text_of(alloc, key)?)?;
    put_if(map, alloc, "slice_key", slice_key_json(alloc, slice_key)?)
}

fn script_members(
    alloc: Global,
    job: Job,
    slice_key: Option<SliceKey>,
    key: Option<&str>,
) -> Result<Map<String, Value>, AllocError>
    ensures { IfOk result (λ map. members_view map.entries
        ≡ script_members job slice_key (option_map (λ k. k.now) key.entry)) }
{
    let mut map = begun(alloc, "script", job)?;
    put_key(&mut map, alloc, slice_key, key)?;
    Ok(map)
}

/// Writes the first line of the trace of a script.
///
/// With a key, its stretches follow; `key` is its text.
pub fn script_head(
    alloc: Global,
    job: Job,
    slice_key: Option<SliceKey>,
    key: Option<&str>,
) -> Result<Vec<u8>, AllocError>
    ensures { IfOk result (λ text. text.items ≡ line_text (script_head_data job slice_key (option_map (λ k. k.now) key.entry))) }
{
    let members = script_members(alloc, job, slice_key, key)?;
    object_line(alloc, members)
}

fn log_line_json(alloc: Global, at: &LogLine) -> Result<Value, AllocError>
    ensures { IfOk result (λ v. view v ≡ log_line_data at.now) }
{
    let (line, log) = (at.line, at.log);
    json!(in alloc; {"line": line, "log": log})
}

fn names_json(alloc: Global, names: &[&str]) -> Result<Value, AllocError>
    ensures { IfOk result (λ v. view v ≡ list_data string (map (λ n. n.now) names.now)) }
{
    let mut list = Vec::new(alloc);
    for name in names {
        list.push(Value::try_from_str(alloc, name)?)?;
    }
    Ok(Value::Array(list))
}

// Puts the last lines that were left out, if there are any.
fn put_torn(map: &mut Map<String, Value>, alloc: Global, torn: &[LogLine]) -> Result<(), AllocError>
    ensures { OnOk result (members_view map.new.entries ≡ with_torn torn.now (members_view map.old.entries)) }
{
    if torn.is_empty() {
        return Ok(());
    }
    let mut list = Vec::new(alloc);
    for at in torn {
        list.push(log_line_json(alloc, at)?)?;
    }
    put(map, alloc, "torn", Value::Array(list))
}

fn logs_members(
    alloc: Global,
    job: Job,
    names: &[&str],
    torn: &[LogLine],
    slice_key: Option<SliceKey>,
    key: Option<&str>,
) -> Result<Map<String, Value>, AllocError>
    ensures { IfOk result (λ members. members_view members.entries
        ≡ logs_members job (map (λ n. n.now) names.now) torn.now slice_key (option_map (λ k. k.now) key.entry)) }
{
    let mut members = begun(alloc, "logs", job)?;
    put(&mut members, alloc, "logs", names_json(alloc, names)?)?;
    put_torn(&mut members, alloc, torn)?;
    put_key(&mut members, alloc, slice_key, key)?;
    Ok(members)
}

/// Writes the first line of the trace of logs with these names.
///
/// `torn` are their last lines that were left out. With a key, its stretches follow; `key` is its
/// text, if it was given as one.
pub fn logs_head(
    alloc: Global,
    job: Job,
    names: &[&str],
    torn: &[LogLine],
    slice_key: Option<SliceKey>,
    key: Option<&str>,
) -> Result<Vec<u8>, AllocError>
    ensures { IfOk result (λ text. text.items
        ≡ line_text (logs_head_data job (map (λ n. n.now) names.now) torn.now slice_key (option_map (λ k. k.now) key.entry))) }
{
    let members = logs_members(alloc, job, names, torn, slice_key, key)?;
    object_line(alloc, members)
}
