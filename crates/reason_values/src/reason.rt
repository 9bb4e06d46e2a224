//! Reasons of replies.

ghost use Rattle.std.specs.Prelude.{◌≡◌, IfOk, option_map};
ghost use Rattle.serde_json.specs.View.{view};
ghost use Rattle.wire.specs.declared.numerals.Numerals.TheVariants as numeral;
ghost use Rattle.wire.specs.Kept.{job_term_data};
ghost use Rattle.reason_values.specs.Reasons.{heard_data, held_data, last_data, life_data, reason_data, term_data};

use crate::breaks::break_json;
use crate::place::LogLine;
use crate::request::request_json;
use grants::{JobTerm, Row};
use lease_rule::Kind;
use reasons::Reason;
use reply_values::large_json;
use serde_json::{Value, json};
use std::alloc::{AllocError, Global};
use wire::{Wire, kind_word};

fn last_json(alloc: Global, last: u64) -> Result<Value, AllocError>
    ensures { IfOk result (λ v. view v ≡ last_data last) }
{
    json!(in alloc; {"last": large_json(alloc, last)?})
}

fn held_json(alloc: Global, row: &Row) -> Result<Value, AllocError>
    ensures { IfOk result (λ v. view v ≡ held_data row.now) }
{
    let row = row.to_json(alloc)?;
    json!(in alloc; {"row": row})
}

fn job_term_json(alloc: Global, term: JobTerm) -> Result<Value, AllocError>
    ensures { IfOk result (λ v. view v ≡ job_term_data numeral.Quoted term) }
{
    let assigner = large_json(alloc, term.assigner)?;
    let number = large_json(alloc, term.number)?;
    let until = large_json(alloc, term.until)?;
    json!(in alloc; {"assigner": assigner, "number": number, "until": until})
}

fn term_json(alloc: Global, term: JobTerm) -> Result<Value, AllocError>
    ensures { IfOk result (λ v. view v ≡ term_data term) }
{
    let term = job_term_json(alloc, term)?;
    json!(in alloc; {"term": term})
}

fn heard_json(alloc: Global, kind: Kind, number: u64, life: u32) -> Result<Value, AllocError>
    ensures { IfOk result (λ v. view v ≡ heard_data kind number life) }
{
    let number = large_json(alloc, number)?;
    json!(in alloc; {"heard": {"kind": kind_word(kind), "number": number}, "life": life})
}

fn life_json(alloc: Global, life: u32) -> Result<Value, AllocError>
    ensures { IfOk result (λ v. view v ≡ life_data life) }
{
    json!(in alloc; {"life": life})
}

/// Writes the reason of a reply; `None` if the table gave no term, which the reply says.
///
/// `lines` are the lines of all calls of logs, in the order of the calls; of a script there are
/// none. `first` is of a broken handle in logs: the first call after which a check would have
/// found it broken.
pub fn reason_json(
    alloc: Global,
    lines: &[LogLine],
    first: Option<u64>,
    reason: &Reason,
) -> Result<Option<Value>, AllocError>
    ensures { IfOk result (λ v. option_map view v ≡ reason_data lines.now first reason.now) }
{
    match reason {
        Reason::Request(reason) => Ok(Some(request_json(alloc, lines, reason)?)),
        Reason::Broken(broken) => Ok(Some(break_json(alloc, lines, first, broken)?)),
        Reason::TableReading(last) | Reason::TaskReading(last) => Ok(Some(last_json(
            alloc, *last,
        )?)),
        Reason::Held(row) => Ok(Some(held_json(alloc, row)?)),
        Reason::Term(Some(term)) => Ok(Some(term_json(alloc, *term)?)),
        Reason::Term(None) => Ok(None),
        Reason::Heard { kind, number, life } => {
            Ok(Some(heard_json(alloc, *kind, *number, *life)?))
        }
        Reason::Life(life) => Ok(Some(life_json(alloc, *life)?)),
    }
}
