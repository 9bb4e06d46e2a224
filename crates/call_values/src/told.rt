//! Replies of logged calls as JSON values.

ghost use Rattle.std.specs.Prelude.{◌≡◌, IfOk};
ghost use Rattle.serde_json.specs.View.{view};
ghost use Rattle.log_line.specs.declared.told.CallerReply.TheVariants as told;
ghost use Rattle.log_line.specs.Told.{fault_word};
ghost use Rattle.call_values.specs.Told.{not_restored_data, told_data};

use log_line::{CallerReply, KeptNumbers, RestoreFault};
use reply_values::{put_large, put_number, put_text, reply_json};
use serde_json::{Map, Value, json};
use std::alloc::{AllocError, Global};

fn fault_word(fault: RestoreFault) -> &'static str
    ensures { result.now ≡ fault_word fault }
{
    match fault {
        RestoreFault::LessThanLog => "less-than-log",
        RestoreFault::FarAhead => "far-ahead",
        RestoreFault::NotAhead => "not-ahead",
    }
}

fn not_restored_json(
    alloc: Global,
    fault: RestoreFault,
    kept: KeptNumbers,
) -> Result<Value, AllocError>
    ensures { IfOk result (λ v. view v ≡ not_restored_data fault kept) }
{
    let mut map = Map::new(alloc);
    put_large(&mut map, alloc, "deadline", kept.deadline)?;
    put_large(&mut map, alloc, "granted", kept.granted)?;
    put_large(&mut map, alloc, "last", kept.last)?;
    put_text(&mut map, alloc, "refused", fault_word(fault))?;
    Ok(Value::Object(map))
}

fn opened_json(alloc: Global, life: u32) -> Result<Value, AllocError>
    ensures { IfOk result (λ v. view v ≡ told_data (told.Opened life)) }
{
    let mut map = Map::new(alloc);
    put_number(&mut map, alloc, "life", life as u64)?;
    put_text(&mut map, alloc, "reply", "opened")?;
    Ok(Value::Object(map))
}

fn restored_json(alloc: Global, generation: u64, grace: u64) -> Result<Value, AllocError>
    ensures { IfOk result (λ v. view v ≡ told_data (told.Restored generation grace)) }
{
    let mut map = Map::new(alloc);
    put_large(&mut map, alloc, "generation", generation)?;
    put_large(&mut map, alloc, "grace", grace)?;
    put_text(&mut map, alloc, "reply", "restored")?;
    Ok(Value::Object(map))
}

fn sampled_json(alloc: Global) -> Result<Value, AllocError>
    ensures { IfOk result (λ v. view v ≡ told_data told.Sampled) }
{
    json!(in alloc; {"reply": "sampled"})
}

/// Converts the reply that the caller of a logged call gets to JSON, as
/// [`reply_json`](reply_values::reply_json) does. The only error is out of memory.
pub fn told_json(alloc: Global, told: &CallerReply) -> Result<Value, AllocError>
    ensures { IfOk result (λ v. view v ≡ told_data told.now) }
{
    match told {
        CallerReply::Scripted(reply) => reply_json(alloc, reply),
        CallerReply::Opened(life) => opened_json(alloc, *life),
        CallerReply::Sampled => sampled_json(alloc),
        CallerReply::Restored { generation, grace } => restored_json(alloc, *generation, *grace),
        CallerReply::NotRestored(fault, kept) => not_restored_json(alloc, *fault, *kept),
    }
}
