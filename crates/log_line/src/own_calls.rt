//! Calls that a line has in a form of its own.

ghost use Rattle.std.specs.Prelude.{◌≡◌};
ghost use Rattle.serde_json.specs.View.{view};
ghost use Rattle.wire.specs.Named.{GivesBy, reader_of};
ghost use Rattle.wire.specs.Refusals.{Gives};
ghost use Rattle.log_line.specs.OwnCalls.{bare_grant_of, bare_learnt, check_line, heard_of, hear_line, hold_line, learn_line, look_line, open_line, own_kinds, phase_line, restore_line, rows_line, sample_line, serve_line, whole_learnt};

use crate::key_member::{key_name, slice_key_in};
use crate::line::{BareGrant, LoggedCall, TaskSample};
use crate::restored::KeptNumbers;
use clerk::ClerkCall;
use clocks::Sample;
use grants::SliceletCall;
use job_calls::ClusterCall;
use program_io::{WrongForm, exactly, member_at, number_at};
use serde_json::Value;
use std::alloc::Global;
use wire::{
    DecodeError, DecodeRefusal, Numerals, assignment_in, grant_of, handle_of, kind_at, life_at,
    numeral_at, task_at,
};

#[tactic(auto, unfolding(crate::specs::OwnCalls::phase_line))]
fn phase_line(line: &Value) -> Result<LoggedCall, DecodeError>
    ensures { Gives result (phase_line (view line.now)) }
{
    exactly(&["ticket", "reply", "do"], line)?;
    Ok(LoggedCall::Whole(ClusterCall::Phase))
}

#[tactic(auto, unfolding(crate::specs::OwnCalls::rows_line))]
fn rows_line(line: &Value) -> Result<LoggedCall, DecodeError>
    ensures { Gives result (rows_line (view line.now)) }
{
    exactly(&["ticket", "reply", "do"], line)?;
    Ok(LoggedCall::Whole(ClusterCall::Rows))
}

#[tactic(auto, unfolding(crate::specs::OwnCalls::restore_line))]
fn restore_line(line: &Value) -> Result<LoggedCall, DecodeError>
    ensures { Gives result (restore_line (view line.now)) }
{
    exactly(
        &["ticket", "reply", "do", "last", "granted", "deadline"],
        line,
    )?;
    Ok(LoggedCall::Restore(KeptNumbers {
        last: numeral_at(Numerals::Either, "last", line)?,
        granted: numeral_at(Numerals::Either, "granted", line)?,
        deadline: numeral_at(Numerals::Either, "deadline", line)?,
    }))
}

/// Parses a grant without the ranges of its lease.
#[tactic(auto, unfolding(crate::specs::OwnCalls::bare_grant_of))]
pub fn bare_grant_of(grant: &Value) -> Result<BareGrant, WrongForm>
    ensures { result ≡ bare_grant_of (view grant.now) }
{
    exactly(
        &[
            "ends",
            "generation",
            "kind",
            "life",
            "number",
            "task",
            "until",
        ],
        grant,
    )?;
    Ok(BareGrant {
        number: numeral_at(Numerals::Either, "number", grant)?,
        task: task_at("task", grant)?,
        life: life_at("life", grant)?,
        kind: kind_at("kind", grant)?,
        generation: numeral_at(Numerals::Either, "generation", grant)?,
        ends: numeral_at(Numerals::Either, "ends", grant)?,
        table_ends: numeral_at(Numerals::Either, "until", grant)?,
    })
}

// Parses a task's hearing of a grant, whose ranges may be left out.
#[tactic(auto, unfolding(crate::specs::OwnCalls::heard_of))]
fn heard_of(alloc: Global, task: u64, at: u64, grant: &Value) -> Result<LoggedCall, DecodeError>
    ensures { Gives result (heard_of task at (view grant.now)) }
{
    if grant.get("ranges").is_some() {
        let grant = grant_of(alloc, Numerals::Either, grant)?;
        let call = SliceletCall::Hear { grant, at };
        Ok(LoggedCall::Whole(ClusterCall::Task { task, call }))
    } else {
        let grant = bare_grant_of(grant)?;
        Ok(LoggedCall::HearBare { task, grant, at })
    }
}

#[tactic(auto, unfolding(crate::specs::OwnCalls::open_line))]
fn open_line(line: &Value) -> Result<LoggedCall, DecodeError>
    ensures { Gives result (open_line (view line.now)) }
{
    exactly(&["ticket", "reply", "do", "task", "life"], line)?;
    Ok(LoggedCall::Whole(ClusterCall::Task {
        task: number_at("task", line)?,
        call: SliceletCall::Resume {
            life: life_at("life", line)?,
        },
    }))
}

#[tactic(auto, unfolding(crate::specs::OwnCalls::hear_line))]
fn hear_line(alloc: Global, line: &Value) -> Result<LoggedCall, DecodeError>
    ensures { Gives result (hear_line (view line.now)) }
{
    exactly(&["ticket", "reply", "do", "task", "grant", "at"], line)?;
    let task = number_at("task", line)?;
    let at = numeral_at(Numerals::Either, "at", line)?;
    heard_of(alloc, task, at, member_at("grant", line)?)
}

#[tactic(auto, unfolding(crate::specs::OwnCalls::sample_line))]
fn sample_line(line: &Value) -> Result<LoggedCall, DecodeError>
    ensures { Gives result (sample_line (view line.now)) }
{
    exactly(
        &["ticket", "reply", "do", "task", "sent", "reading", "now"],
        line,
    )?;
    let task = number_at("task", line)?;
    let sent = numeral_at(Numerals::Either, "sent", line)?;
    let reading = numeral_at(Numerals::Either, "reading", line)?;
    let now = numeral_at(Numerals::Either, "now", line)?;
    Ok(LoggedCall::Sample(TaskSample {
        task,
        sample: Sample { sent, reading },
        now,
    }))
}

#[tactic(auto, unfolding(crate::specs::OwnCalls::serve_line))]
fn serve_line(line: &Value) -> Result<LoggedCall, DecodeError>
    ensures { Gives result (serve_line (view line.now)) }
{
    exactly(
        &["ticket", "reply", "do", "task", key_name(line), "at"],
        line,
    )?;
    Ok(LoggedCall::Whole(ClusterCall::Serve {
        task: number_at("task", line)?,
        key: slice_key_in(line)?,
        at: numeral_at(Numerals::Either, "at", line)?,
    }))
}

#[tactic(auto, unfolding(crate::specs::OwnCalls::hold_line))]
fn hold_line(line: &Value) -> Result<LoggedCall, DecodeError>
    ensures { Gives result (hold_line (view line.now)) }
{
    exactly(
        &["ticket", "reply", "do", "task", key_name(line), "at"],
        line,
    )?;
    Ok(LoggedCall::Whole(ClusterCall::Hold {
        task: number_at("task", line)?,
        key: slice_key_in(line)?,
        at: numeral_at(Numerals::Either, "at", line)?,
    }))
}

#[tactic(auto, unfolding(crate::specs::OwnCalls::check_line))]
fn check_line(line: &Value) -> Result<LoggedCall, DecodeError>
    ensures { Gives result (check_line (view line.now)) }
{
    exactly(&["ticket", "reply", "do", "task", "handle", "at"], line)?;
    Ok(LoggedCall::Whole(ClusterCall::Check {
        task: number_at("task", line)?,
        handle: handle_of(Numerals::Either, member_at("handle", line)?)?,
        at: numeral_at(Numerals::Either, "at", line)?,
    }))
}

fn whole_learnt(alloc: Global, line: &Value) -> Result<LoggedCall, DecodeError>
    ensures { Gives result (whole_learnt (view line.now)) }
{
    exactly(
        &["ticket", "reply", "do", "clerk", "generation", "slices"],
        line,
    )?;
    let assignment = assignment_in(alloc, Numerals::Either, line)?;
    Ok(LoggedCall::Whole(ClusterCall::Clerk {
        clerk: number_at("clerk", line)?,
        call: ClerkCall::Learn(assignment),
    }))
}

fn bare_learnt(line: &Value) -> Result<LoggedCall, DecodeError>
    ensures { Gives result (bare_learnt (view line.now)) }
{
    exactly(&["ticket", "reply", "do", "clerk", "generation"], line)?;
    let generation = numeral_at(Numerals::Either, "generation", line)?;
    let clerk = number_at("clerk", line)?;
    Ok(LoggedCall::LearnBare { clerk, generation })
}

// Parses a clerk's learning of an assignment, whose slices may be left out.
#[tactic(auto, unfolding(crate::specs::OwnCalls::learn_line))]
fn learn_line(alloc: Global, line: &Value) -> Result<LoggedCall, DecodeError>
    ensures { Gives result (learn_line (view line.now)) }
{
    if line.get("slices").is_some() {
        whole_learnt(alloc, line)
    } else {
        bare_learnt(line)
    }
}

#[tactic(auto, unfolding(crate::specs::OwnCalls::look_line))]
fn look_line(line: &Value) -> Result<LoggedCall, DecodeError>
    ensures { Gives result (look_line (view line.now)) }
{
    exactly(&["ticket", "reply", "do", "clerk", key_name(line)], line)?;
    Ok(LoggedCall::Whole(ClusterCall::Look {
        clerk: number_at("clerk", line)?,
        key: slice_key_in(line)?,
    }))
}

/// Parses the call with this name, if lines have it in a form of their own.
pub fn own_call_named(
    alloc: Global,
    name: &str,
    line: &Value,
) -> Option<Result<LoggedCall, DecodeError>>
    ensures { GivesBy (reader_of own_kinds name.now) (view line.now) result }
{
    Some(match name {
        "phase" => phase_line(line),
        "rows" => rows_line(line),
        "restore" => restore_line(line),
        "open" => open_line(line),
        "hear" => hear_line(alloc, line),
        "sample" => sample_line(line),
        "serve" => serve_line(line),
        "hold" => hold_line(line),
        "check" => check_line(line),
        "learn" => learn_line(alloc, line),
        "look" => look_line(line),
        _ => return None,
    })
}
