//! The last line of a trace.

ghost use Rattle.std.specs.Prelude.{◌≡◌, IfOk, OnOk, map, option_map};
ghost use Rattle.serde_json.specs.View.{members_view, view};
ghost use Rattle.wire.specs.Objects.{list_data, number_data};
ghost use Rattle.trace_ends.specs.Ends.{actor_data, counts_data, double_data, double_end_data, double_members, drift_data, ended, judged, one_end_data, one_members, other_end_data, other_members, script_end_data, untimely_data, with_flag_if, with_list_if, with_number_if};
ghost use Rattle.reason_values.specs.Lines.{line_text};

use crate::drift::{DriftFound, drift_json};
use crate::hints::{Hints, hint_values};
use crate::line::named_line;
use crate::untimely::untimely_json;
use reason_values::{LogLine, place_json};
use reasons::UntimelyReadings;
use reply_values::{large_json, put_if};
use serde_json::{Map, Value, json, put};
use std::alloc::{AllocError, Global};

/// How many calls a task or a clerk took.
#[derive(Clone, Copy, Debug)]
pub struct ActorCalls {
    /// The number of the task or the clerk, from 1.
    pub actor: u64,
    /// How many calls it took.
    pub calls: u64,
}

/// How many calls each actor took.
#[derive(Debug, Drop)]
pub struct Counts {
    /// How many calls the table took.
    pub table: u64,
    /// The tasks that took any.
    pub tasks: Vec<ActorCalls>,
    /// The clerks that took any.
    pub clerks: Vec<ActorCalls>,
}

/// What is told of logs that are one run.
#[derive(Debug, Drop)]
pub struct OneRun {
    /// How many calls the table, each task and each clerk took.
    pub counts: Counts,
    /// How many replies of the logs were judged by one word.
    pub one_word: u64,
    /// The tasks, by their numbers, that took no call though others name them.
    pub silent: Vec<u64>,
    /// The first reading that is not timely; `None` if the clocks were timely.
    pub untimely: Option<UntimelyReadings>,
    /// Whether the samples keep the drift; `None` if none was asked for.
    pub drift: Option<DriftFound>,
    /// Whether what earlier logs sent may be forgotten, and a call was refused for it.
    pub forgotten: bool,
}

/// Two calls that have one ticket.
#[derive(Clone, Copy, Debug)]
pub struct DoubleTicket {
    /// The lowest ticket that two calls have.
    pub ticket: u64,
    /// The number of the first of them among all calls, from 1.
    pub first: u64,
    /// The number of the second of them among all calls, from 1.
    pub second: u64,
}

fn actors_json(alloc: Global, taken: &[ActorCalls]) -> Result<Value, AllocError>
    ensures { IfOk result (λ v. view v ≡ list_data actor_data taken.now) }
{
    let mut list = Vec::new(alloc);
    for one in taken {
        let (actor, calls) = (one.actor, one.calls);
        list.push(json!(in alloc; [actor, calls])?)?;
    }
    Ok(Value::Array(list))
}

fn counts_json(alloc: Global, counts: &Counts) -> Result<Value, AllocError>
    ensures { IfOk result (λ v. view v ≡ counts_data counts.now) }
{
    let clerks = actors_json(alloc, &counts.clerks)?;
    let table = counts.table;
    let tasks = actors_json(alloc, &counts.tasks)?;
    json!(in alloc; {"clerks": clerks, "table": table, "tasks": tasks})
}

// Returns the values of numbers.
fn number_values(alloc: Global, numbers: &[u64]) -> Result<Vec<Value>, AllocError>
    ensures { IfOk result (λ list. map view list.items ≡ map number_data numbers.now) }
{
    let mut list = Vec::new(alloc);
    for number in numbers {
        list.push(Value::from(*number))?;
    }
    Ok(list)
}

// Puts a list under this name, if it has any elements.
fn put_list_if(
    members: &mut Map<String, Value>,
    alloc: Global,
    name: &str,
    list: Vec<Value>,
) -> Result<(), AllocError>
    ensures { OnOk result (members_view members.new.entries
        ≡ with_list_if name.now (map view list.items) (members_view members.old.entries)) }
{
    if list.is_empty() {
        return Ok(());
    }
    put(members, alloc, name, Value::Array(list))
}

// Puts a number under this name, if it is above 0.
fn put_number_if(
    map: &mut Map<String, Value>,
    alloc: Global,
    name: &str,
    number: u64,
) -> Result<(), AllocError>
    ensures { OnOk result (members_view map.new.entries ≡ with_number_if name.now number (members_view map.old.entries)) }
{
    if number == 0 {
        return Ok(());
    }
    put(map, alloc, name, Value::from(number))
}

// Puts a flag under this name, if it is set.
fn put_flag_if(
    map: &mut Map<String, Value>,
    alloc: Global,
    name: &str,
    flag: bool,
) -> Result<(), AllocError>
    ensures { OnOk result (members_view map.new.entries ≡ with_flag_if name.now flag (members_view map.old.entries)) }
{
    if flag {
        put(map, alloc, name, Value::Bool(true))
    } else {
        Ok(())
    }
}

fn untimely_if(
    alloc: Global,
    lines: &[LogLine],
    untimely: &Option<UntimelyReadings>,
) -> Result<Option<Value>, AllocError>
    ensures { IfOk result (λ v. option_map view v ≡ option_map (untimely_data lines.now) untimely.now) }
{
    match untimely {
        Some(untimely) => Ok(Some(untimely_json(alloc, lines, untimely)?)),
        None => Ok(None),
    }
}

fn drift_if(
    alloc: Global,
    lines: &[LogLine],
    drift: &Option<DriftFound>,
) -> Result<Option<Value>, AllocError>
    ensures { IfOk result (λ v. option_map view v ≡ option_map (drift_data lines.now) drift.now) }
{
    match drift {
        Some(drift) => Ok(Some(drift_json(alloc, lines, drift)?)),
        None => Ok(None),
    }
}

// Returns how many calls there are, and the readings by which clocks were not timely.
fn ended(
    alloc: Global,
    lines: &[LogLine],
    calls: u64,
    untimely: &Option<UntimelyReadings>,
) -> Result<Map<String, Value>, AllocError>
    ensures { IfOk result (λ map. members_view map.entries ≡ ended lines.now calls untimely.now) }
{
    let mut map = Map::new(alloc);
    put(&mut map, alloc, "calls", Value::from(calls))?;
    put_if(
        &mut map,
        alloc,
        "untimely",
        untimely_if(alloc, lines, untimely)?,
    )?;
    Ok(map)
}

fn put_verdict(map: &mut Map<String, Value>, alloc: Global, verdict: &str) -> Result<(), AllocError>
    ensures { OnOk result (members_view map.new.entries ≡ judged verdict.now (members_view map.old.entries)) }
{
    put(map, alloc, "verdict", Value::try_from_str(alloc, verdict)?)
}

/// Writes the last line of the trace of a script.
pub fn script_end(
    alloc: Global,
    calls: u64,
    untimely: &Option<UntimelyReadings>,
) -> Result<Vec<u8>, AllocError>
    ensures { IfOk result (λ text. text.items ≡ line_text (script_end_data calls untimely.now)) }
{
    let members = ended(alloc, &[], calls, untimely)?;
    named_line(alloc, "end", members)
}

fn one_members(
    alloc: Global,
    lines: &[LogLine],
    calls: u64,
    run: &OneRun,
) -> Result<Map<String, Value>, AllocError>
    ensures { IfOk result (λ members. members_view members.entries ≡ one_members lines.now calls run.now) }
{
    let mut members = ended(alloc, lines, calls, &run.untimely)?;
    put_verdict(&mut members, alloc, "one")?;
    let counts = counts_json(alloc, &run.counts)?;
    put(&mut members, alloc, "counts", counts)?;
    put_number_if(&mut members, alloc, "one_word", run.one_word)?;
    let silent = number_values(alloc, &run.silent)?;
    put_list_if(&mut members, alloc, "silent", silent)?;
    let drift = drift_if(alloc, lines, &run.drift)?;
    put_if(&mut members, alloc, "drift", drift)?;
    put_flag_if(&mut members, alloc, "forgotten", run.forgotten)?;
    Ok(members)
}

/// Writes the last line of the trace of logs that are one run.
///
/// `lines` are the lines of all calls of the logs, in the order of the calls.
pub fn one_end(
    alloc: Global,
    lines: &[LogLine],
    calls: u64,
    run: &OneRun,
) -> Result<Vec<u8>, AllocError>
    ensures { IfOk result (λ text. text.items ≡ line_text (one_end_data lines.now calls run.now)) }
{
    let members = one_members(alloc, lines, calls, run)?;
    named_line(alloc, "end", members)
}

fn double_json(alloc: Global, lines: &[LogLine], double: DoubleTicket) -> Result<Value, AllocError>
    ensures { IfOk result (λ v. view v ≡ double_data lines.now double) }
{
    let first = place_json(alloc, lines, double.first)?;
    let second = place_json(alloc, lines, double.second)?;
    let ticket = large_json(alloc, double.ticket)?;
    json!(in alloc; {"first": first, "second": second, "ticket": ticket})
}

fn double_members(
    alloc: Global,
    lines: &[LogLine],
    calls: u64,
    double: DoubleTicket,
) -> Result<Map<String, Value>, AllocError>
    ensures { IfOk result (λ members. members_view members.entries ≡ double_members lines.now calls double) }
{
    let mut members = ended(alloc, lines, calls, &None)?;
    put_verdict(&mut members, alloc, "double")?;
    put(
        &mut members,
        alloc,
        "double",
        double_json(alloc, lines, double)?,
    )?;
    Ok(members)
}

/// Writes the last line of the trace of logs of which two calls have one ticket.
pub fn double_end(
    alloc: Global,
    lines: &[LogLine],
    calls: u64,
    double: DoubleTicket,
) -> Result<Vec<u8>, AllocError>
    ensures { IfOk result (λ text. text.items ≡ line_text (double_end_data lines.now calls double)) }
{
    let members = double_members(alloc, lines, calls, double)?;
    named_line(alloc, "end", members)
}

fn other_members(
    alloc: Global,
    lines: &[LogLine],
    calls: u64,
    hints: &Hints,
) -> Result<Map<String, Value>, AllocError>
    ensures { IfOk result (λ members. members_view members.entries ≡ other_members lines.now calls hints.now) }
{
    let mut members = ended(alloc, lines, calls, &None)?;
    put_verdict(&mut members, alloc, "other")?;
    put_list_if(
        &mut members,
        alloc,
        "hints",
        hint_values(alloc, lines, hints)?,
    )?;
    Ok(members)
}

/// Writes the last line of the trace of logs that are not one run, with what they may lack.
pub fn other_end(
    alloc: Global,
    lines: &[LogLine],
    calls: u64,
    hints: &Hints,
) -> Result<Vec<u8>, AllocError>
    ensures { IfOk result (λ text. text.items ≡ line_text (other_end_data lines.now calls hints.now)) }
{
    let members = other_members(alloc, lines, calls, hints)?;
    named_line(alloc, "end", members)
}
