//! Plans as JSON values.

ghost use Rattle.std.specs.Prelude.{◌≡◌, IfOk, None, Some};
ghost use Rattle.serde_json.specs.View.{view};
ghost use Rattle.wire.specs.Objects.{list_data};
ghost use Rattle.replies.specs.declared.reply.Reply.TheVariants as reply;
ghost use Rattle.reply_values.specs.Replies.{move_data, owner_change_data, reply_data};

use crate::lists::slices_json;
use crate::members::{put_large, put_number, put_text};
use assignment::TaskId;
use serde_json::{Map, Value, put};
use std::alloc::{AllocError, Global};
use weighted_move::{Move, Plan};

// Writes a move that replaces an owner.
fn replaced_json(
    alloc: Global,
    giver: TaskId,
    taker: TaskId,
    one: &Move,
) -> Result<Value, AllocError>
    ensures { IfOk result (λ v. view v ≡ owner_change_data (Some giver) (Some taker) one.now) }
{
    let mut map = Map::new(alloc);
    put_large(&mut map, alloc, "churn", one.churn)?;
    put_number(&mut map, alloc, "from", giver.number())?;
    put_number(&mut map, alloc, "gain", one.gain)?;
    put_large(&mut map, alloc, "start", one.start)?;
    put_number(&mut map, alloc, "to", taker.number())?;
    Ok(Value::Object(map))
}

// Writes a move that adds an owner.
fn added_json(alloc: Global, taker: TaskId, one: &Move) -> Result<Value, AllocError>
    ensures { IfOk result (λ v. view v ≡ owner_change_data None (Some taker) one.now) }
{
    let mut map = Map::new(alloc);
    put_large(&mut map, alloc, "churn", one.churn)?;
    put_number(&mut map, alloc, "gain", one.gain)?;
    put_large(&mut map, alloc, "start", one.start)?;
    put_number(&mut map, alloc, "to", taker.number())?;
    Ok(Value::Object(map))
}

// Writes a move that takes an owner away.
fn removed_json(alloc: Global, giver: TaskId, one: &Move) -> Result<Value, AllocError>
    ensures { IfOk result (λ v. view v ≡ owner_change_data (Some giver) None one.now) }
{
    let mut map = Map::new(alloc);
    put_large(&mut map, alloc, "churn", one.churn)?;
    put_number(&mut map, alloc, "from", giver.number())?;
    put_number(&mut map, alloc, "gain", one.gain)?;
    put_large(&mut map, alloc, "start", one.start)?;
    Ok(Value::Object(map))
}

// Writes a move that changes no owner.
fn kept_json(alloc: Global, one: &Move) -> Result<Value, AllocError>
    ensures { IfOk result (λ v. view v ≡ owner_change_data None None one.now) }
{
    let mut map = Map::new(alloc);
    put_large(&mut map, alloc, "churn", one.churn)?;
    put_number(&mut map, alloc, "gain", one.gain)?;
    put_large(&mut map, alloc, "start", one.start)?;
    Ok(Value::Object(map))
}

fn move_json(alloc: Global, one: &Move) -> Result<Value, AllocError>
    ensures { IfOk result (λ v. view v ≡ move_data one.now) }
{
    match (one.giver, one.taker) {
        (Some(giver), Some(taker)) => replaced_json(alloc, giver, taker, one),
        (None, Some(taker)) => added_json(alloc, taker, one),
        (Some(giver), None) => removed_json(alloc, giver, one),
        (None, None) => kept_json(alloc, one),
    }
}

fn moves_json(alloc: Global, moves: &[Move]) -> Result<Value, AllocError>
    ensures { IfOk result (λ v. view v ≡ list_data move_data moves.now) }
{
    let mut list = Vec::new(alloc);
    for one in moves {
        list.push(move_json(alloc, one)?)?;
    }
    Ok(Value::Array(list))
}

/// Writes the reply that has a plan.
pub fn plan_json(alloc: Global, plan: &Plan) -> Result<Value, AllocError>
    ensures { IfOk result (λ v. view v ≡ reply_data (reply.Planned plan.now)) }
{
    let moves = moves_json(alloc, plan.moves.as_slice())?;
    let slices = slices_json(alloc, plan.slices.as_slice())?;
    let mut map = Map::new(alloc);
    put(&mut map, alloc, "moves", moves)?;
    put_text(&mut map, alloc, "reply", "plan")?;
    put(&mut map, alloc, "slices", slices)?;
    Ok(Value::Object(map))
}
