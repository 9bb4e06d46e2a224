//! The line of a write to a store.

ghost use Rattle.std.specs.Prelude.{◌≡◌, IfOk, string_bytes};
ghost use Rattle.serde_json.specs.View.{view};
ghost use Rattle.log_line.specs.Lines.{SaysWrite};
ghost use Rattle.c_calls.specs.Outputs.{output};
ghost use Rattle.log_lines.specs.Writes.{IsWriteLine, IsWriteLineOf, IsWriteReadBack, numbered_data, plain_data, token_text, write_data, write_text};

use crate::output::give_made;
use crate::write_numbers::WriteNumbers;
use c_calls::Answer;
use fence::Token;
use log_line::{LoggedWrite, StoreReply, token_text_law};
use serde_json::{Value, json};
use std::alloc::{AllocError, Global};

// Returns the hexadecimal digits of a token.
fn token_text(alloc: Global, token: Token) -> Result<String, AllocError>
    ensures { IfOk result (λ text. string_bytes text ≡ token_text token) }
{
    let bytes = token.to_bytes();
    hex::encode(alloc, &bytes[..])
}

fn plain_json(alloc: Global, write: &LoggedWrite, words: &str) -> Result<Value, AllocError>
    ensures { IfOk result (λ v. view v ≡ plain_data write.now words.now) }
{
    let token = token_text(alloc, write.token)?;
    json!(in alloc; {
        "do": "write",
        "reply": words,
        "slice_key": write.key.value(),
        "ticket": write.ticket,
        "token": token.as_str()
    })
}

fn numbered_json(alloc: Global, write: &LoggedWrite, revision: u64) -> Result<Value, AllocError>
    ensures { IfOk result (λ v. view v ≡ numbered_data write.now revision) }
{
    let token = token_text(alloc, write.token)?;
    json!(in alloc; {
        "do": "write",
        "reply": "taken",
        "revision": revision,
        "slice_key": write.key.value(),
        "ticket": write.ticket,
        "token": token.as_str()
    })
}

fn write_json(alloc: Global, write: &LoggedWrite) -> Result<Value, AllocError>
    ensures { IfOk result (λ v. view v ≡ write_data write.now) }
{
    match write.reply {
        StoreReply::Taken(Some(revision)) => numbered_json(alloc, write, revision),
        StoreReply::Taken(None) => plain_json(alloc, write, "taken"),
        StoreReply::Refused => plain_json(alloc, write, "refused"),
        StoreReply::Unknown => plain_json(alloc, write, "unknown"),
    }
}

// States that what is written of a write is read as the write.
fn write_law(write: &LoggedWrite)
    ensures { IsWriteReadBack write.now }
{
    token_text_law();
    let _key = write.key.value();
    let _epoch = write.token.epoch;
    let _generation = write.token.generation;
    let _life = write.token.life;
}

// Writes the line without its end.
fn bytes_of(alloc: Global, write: &LoggedWrite) -> Result<Vec<u8>, AllocError>
    ensures text { IfOk result (λ bytes. bytes.items ≡ write_text write.now) }
    ensures says { IfOk result (λ bytes. SaysWrite bytes.items write.now) }
{
    write_law(write);
    let line = write_json(alloc, write)?;
    line.to_vec(alloc)
}

fn line_of(alloc: Global, write: &LoggedWrite) -> Result<Vec<u8>, AllocError>
    ensures { IfOk result (λ text. IsWriteLine write.now text.items) }
{
    let mut text = bytes_of(alloc, write)?;
    text.push(b'\n')?;
    Ok(text)
}

/// Writes the line of a log of a write to a store, ended by a line feed.
///
/// # Errors
///
/// In this order: `WrongForm` if the slice key or the number of what the store said is outside its
/// limits; then `NoRoom` or `NoMemory`.
pub fn log_write(
    alloc: Global,
    numbers: &WriteNumbers,
    out: &mut [u8],
    needed: &mut usize,
) -> Answer
    ensures { IsWriteLineOf numbers.now (output out.old needed.old) (output out.new needed.new) result }
{
    let Some(write) = numbers.write() else {
        return Answer::WrongForm;
    };
    give_made(line_of(alloc, &write), out, needed)
}
