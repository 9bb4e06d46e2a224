//! Lines of writes to stores.

ghost use Rattle.std.specs.Prelude.{◌≡◌, is_ok};
ghost use Rattle.hex.specs.Hex.{encode_lower};
ghost use Rattle.serde_json.specs.View.{view};
ghost use Rattle.fence.specs.declared.token.Token.{Token as SomeToken};
ghost use Rattle.fence.specs.Tokens.{Fits, bytes_of};
ghost use Rattle.log_line.specs.Writes.{bytes_in, has_revision, is_write, numbered_reply, numbered_write, plain_reply, plain_write, token_at, token_of_text, write_of, write_with};

use crate::key_member::{key_name, slice_key_in};
use crate::write::{LoggedWrite, StoreReply};
use fence::Token;
use hex::FromHex;
use program_io::{WrongForm, exactly, number_at, text_at};
use serde_json::Value;
use wire::{Numerals, numeral_at};

// Returns the four bytes of eight hexadecimal digits.
fn four_bytes(digits: &[u8]) -> Result<[u8; 4], WrongForm>
    ensures { result ≡ bytes_in 4 digits.now }
{
    match <[u8; 4] as FromHex>::from_hex(digits) {
        Ok(bytes) => Ok(bytes),
        Err(_) => Err(WrongForm),
    }
}

// Returns the eight bytes of sixteen hexadecimal digits.
fn eight_bytes(digits: &[u8]) -> Result<[u8; 8], WrongForm>
    ensures { result ≡ bytes_in 8 digits.now }
{
    match <[u8; 8] as FromHex>::from_hex(digits) {
        Ok(bytes) => Ok(bytes),
        Err(_) => Err(WrongForm),
    }
}

// Returns the token whose bytes are these 32 hexadecimal digits.
#[tactic(auto, unfolding(crate::specs::Writes::token_of_text))]
fn token_of_text(text: &str) -> Result<Token, WrongForm>
    ensures { result ≡ token_of_text text.now }
{
    let digits = text.as_bytes();
    if digits.len() != 32 {
        return Err(WrongForm);
    }
    let epoch = four_bytes(&digits[..8])?;
    let generation = eight_bytes(&digits[8..24])?;
    let life = four_bytes(&digits[24..])?;
    Ok(Token {
        epoch: u32::from_be_bytes(epoch),
        generation: u64::from_be_bytes(generation),
        life: u32::from_be_bytes(life),
    })
}

/// States that the hexadecimal text of a token's bytes is read as the token.
pub fn token_text_law()
    ensures { (token : SomeToken) → Fits token → token_of_text (encode_lower (bytes_of token)) ≡ Ok token }
{}

/// Whether a text is that of a token.
pub fn is_token_text(text: &str) -> bool
    ensures { result ≡ is_ok (token_of_text text.now) }
{
    token_of_text(text).is_ok()
}

// Returns the member with this name as a token.
fn token_at(name: &str, line: &Value) -> Result<Token, WrongForm>
    ensures { result ≡ token_at name.now (view line.now) }
{
    token_of_text(text_at(name, line)?)
}

// Whether the store gave the write a revision.
fn has_revision(line: &Value) -> bool
    ensures { result ≡ has_revision (view line.now) }
{
    line.get("revision").is_some()
}

// Returns what a store said that gave no revision.
fn plain_reply(words: &str) -> Result<StoreReply, WrongForm>
    ensures { result ≡ plain_reply words.now }
{
    match words {
        "taken" => Ok(StoreReply::Taken(None)),
        "refused" => Ok(StoreReply::Refused),
        "unknown" => Ok(StoreReply::Unknown),
        _ => Err(WrongForm),
    }
}

/// Whether a text is what a store can say.
pub fn is_store_reply(words: &str) -> bool
    ensures { result ≡ is_ok (plain_reply words.now) }
{
    plain_reply(words).is_ok()
}

// Returns what a store said that gave this revision.
fn numbered_reply(words: &str, revision: u64) -> Result<StoreReply, WrongForm>
    ensures { result ≡ numbered_reply words.now revision }
{
    match words {
        "taken" => Ok(StoreReply::Taken(Some(revision))),
        _ => Err(WrongForm),
    }
}

// Parses the ticket, the key and the token of a write of which the store said this.
fn write_with(reply: StoreReply, line: &Value) -> Result<LoggedWrite, WrongForm>
    ensures { result ≡ write_with reply (view line.now) }
{
    Ok(LoggedWrite {
        ticket: number_at("ticket", line)?,
        key: slice_key_in(line)?,
        token: token_at("token", line)?,
        reply,
    })
}

#[tactic(auto, unfolding(crate::specs::Writes::plain_write))]
fn plain_write(line: &Value) -> Result<LoggedWrite, WrongForm>
    ensures { result ≡ plain_write (view line.now) }
{
    exactly(&["ticket", "reply", "do", key_name(line), "token"], line)?;
    let reply = plain_reply(text_at("reply", line)?)?;
    write_with(reply, line)
}

#[tactic(auto, unfolding(crate::specs::Writes::numbered_write))]
fn numbered_write(line: &Value) -> Result<LoggedWrite, WrongForm>
    ensures { result ≡ numbered_write (view line.now) }
{
    exactly(
        &["ticket", "reply", "do", key_name(line), "token", "revision"],
        line,
    )?;
    let words = text_at("reply", line)?;
    let revision = numeral_at(Numerals::Either, "revision", line)?;
    write_with(numbered_reply(words, revision)?, line)
}

/// Parses a line of a write.
pub fn write_of(line: &Value) -> Result<LoggedWrite, WrongForm>
    ensures { result ≡ write_of (view line.now) }
{
    if has_revision(line) {
        numbered_write(line)
    } else {
        plain_write(line)
    }
}

/// Whether a line is said to be of a write.
pub fn is_write(line: &Value) -> bool
    ensures { result ≡ is_write (view line.now) }
{
    match text_at("do", line) {
        Ok(name) => name == "write",
        Err(WrongForm) => false,
    }
}
