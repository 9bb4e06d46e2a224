//! Readers of the members of leases and their calls.

ghost use Rattle.std.specs.Prelude.{◌≡◌};
ghost use Rattle.serde_json.specs.View.{view};
ghost use Rattle.wire.specs.LeaseMembers.{kind_word, kind_at, life_at, task_at};

use assignment::TaskId;
use lease_rule::Kind;
use program_io::{WrongForm, number_at, text_at};
use serde_json::Value;

/// How many lives there are.
const LIVES: u64 = 1 << 32;

/// Returns the word for a kind of lease.
pub fn kind_word(kind: Kind) -> &'static str
    ensures { result.now ≡ kind_word kind }
{
    match kind {
        Kind::Guard => "guard",
        Kind::Bridge => "bridge",
    }
}

/// Returns the member with this name as a kind of lease.
pub fn kind_at(name: &str, value: &Value) -> Result<Kind, WrongForm>
    ensures { result ≡ kind_at name.now (view value.now) }
{
    match text_at(name, value)? {
        "guard" => Ok(Kind::Guard),
        "bridge" => Ok(Kind::Bridge),
        _ => Err(WrongForm),
    }
}

/// Returns the member with this name as the number of a life.
pub fn life_at(name: &str, value: &Value) -> Result<u32, WrongForm>
    ensures { result ≡ life_at name.now (view value.now) }
{
    let life = number_at(name, value)?;
    if life < LIVES {
        Ok(life as u32)
    } else {
        Err(WrongForm)
    }
}

/// Returns the member with this name as a task number that a job may have.
pub fn task_at(name: &str, value: &Value) -> Result<TaskId, WrongForm>
    ensures { result ≡ task_at name.now (view value.now) }
{
    match TaskId::new(number_at(name, value)?) {
        Some(task) => Ok(task),
        None => Err(WrongForm),
    }
}
