//! The line of a call, given whole or not at all.

ghost use Rattle.std.specs.Prelude.{◌≡◌, IfOk, string_bytes};
ghost use Rattle.log_line.specs.Lines.{SaysLine};
ghost use Rattle.log_line.specs.Told.{plain_text};
ghost use Rattle.c_calls.specs.Jobs.{job_of};
ghost use Rattle.c_calls.specs.Outputs.{output};
ghost use Rattle.log_lines.specs.LineData.{line_data};
ghost use Rattle.log_lines.specs.Lines.{IsLine, IsLineGiven, IsLineOf, IsLineOfNumbers, IsNamedLineGiven, is_done, line_text, logged_line};
ghost use Rattle.log_lines.specs.Messages.{message_kind};
ghost use Rattle.log_lines.specs.PlainLines.{IsCompactJson};
ghost use Rattle.log_lines.specs.Replies.{Logged, logged_in};

use crate::call_name::CallName;
use crate::calls::call_in;
use crate::line_json::line_json;
use crate::line_laws::line_law;
use crate::message::{Message, MessageKind, message_kind, read_message};
use crate::numbers::LoggedNumbers;
use crate::output::{give_made, unread_answer};
use crate::plain_line::{is_plain, plain_line};
use crate::replied::told_in;
use c_calls::{Answer, job_of};
use log_line::{CallerReply, LoggedCall, PlainLine};
use std::alloc::{AllocError, Global};
use std::marker::Model;
use wire::JobName;

// Room for the words of most replies.
const WORDS_ROOM: usize = 64;

/// A call, and what its caller was told.
#[derive(Debug, Drop)]
struct LoggedReply {
    call: LoggedCall,
    told: CallerReply,
}

impl Model for LoggedReply {
    ghost use Rattle.log_lines.specs.Replies.{Logged};

    ghost Value = { Logged };

    ghost view = { λ l. record { call = l.call; told = l.told } };
}

// Returns the call that the numbers and the message say, and what its caller was told.
fn logged_in(name: CallName, n: &LoggedNumbers, message: Message) -> Option<LoggedReply>
    ensures { result ≡ logged_in name n.now message }
{
    let (delivered, made) = message.part(name);
    let call = call_in(name, n, delivered)?;
    let told = told_in(name, n, made, &call)?;
    Some(LoggedReply { call, told })
}

// Writes the line by a value of its JSON.
fn value_bytes(
    alloc: Global,
    ticket: u64,
    call: &LoggedCall,
    words: &str,
) -> Result<Vec<u8>, AllocError>
    ensures { IfOk result (λ bytes. IsCompactJson bytes.items (line_data ticket call.now words.now)) }
{
    let line = line_json(alloc, ticket, call, words)?;
    line.to_vec(alloc)
}

// Writes the line as text if it is one of the calls that are made most.
fn json_bytes(
    alloc: Global,
    ticket: u64,
    call: &LoggedCall,
    words: &str,
) -> Result<Vec<u8>, AllocError>
    ensures { IfOk result (λ bytes. IsCompactJson bytes.items (line_data ticket call.now words.now)) }
{
    if is_plain(words) {
        if let Some(line) = plain_line(alloc, ticket, call, words)? {
            return Ok(line.into_bytes());
        }
    }
    value_bytes(alloc, ticket, call, words)
}

// Writes the line without its end.
fn bytes_of(
    alloc: Global,
    ticket: u64,
    call: &LoggedCall,
    words: &str,
) -> Result<Vec<u8>, AllocError>
    ensures text { IfOk result (λ bytes. bytes.items ≡ line_text ticket call.now words.now) }
    ensures says { IfOk result (λ bytes. SaysLine bytes.items (logged_line ticket call.now words.now)) }
{
    line_law(ticket, call, words);
    json_bytes(alloc, ticket, call, words)
}

// Writes the words that the caller was told.
fn words_of(alloc: Global, told: &CallerReply) -> Result<String, AllocError>
    ensures { IfOk result (λ words. string_bytes words ≡ plain_text told.now) }
{
    let mut words = String::with_capacity(alloc, WORDS_ROOM)?;
    write!(words, "{}", PlainLine(told))?;
    Ok(words)
}

fn line_of(alloc: Global, ticket: u64, logged: &LoggedReply) -> Result<Vec<u8>, AllocError>
    ensures { IfOk result (λ text. IsLineOf ticket logged.now text.items) }
{
    let words = words_of(alloc, &logged.told)?;
    let mut text = bytes_of(alloc, ticket, &logged.call, words.as_str())?;
    text.push(b'\n')?;
    Ok(text)
}

/// Writes the line of the call that the numbers and the message say.
pub fn give_line(
    alloc: Global,
    name: CallName,
    numbers: &LoggedNumbers,
    message: Message,
    out: &mut [u8],
    needed: &mut usize,
) -> Answer
    ensures { IsLineGiven numbers.now (logged_in name numbers.now message) (output out.old needed.old) (output out.new needed.new) result }
{
    let Some(logged) = logged_in(name, numbers, message) else {
        return Answer::WrongForm;
    };
    give_made(line_of(alloc, numbers.ticket, &logged), out, needed)
}

fn is_done(code: i32) -> bool
    ensures { result ≡ is_done code }
{
    code == 0
}

// Returns which message a call has.
fn kind_in(name: CallName, numbers: &LoggedNumbers) -> MessageKind
    ensures { result ≡ message_kind name (is_done numbers.now.code) }
{
    message_kind(name, is_done(numbers.code))
}

/// Writes the line of a call of this name.
pub fn give_named_line(
    alloc: Global,
    job: &JobName,
    name: CallName,
    numbers: &LoggedNumbers,
    message: &[u8],
    out: &mut [u8],
    needed: &mut usize,
) -> Answer
    ensures { IsNamedLineGiven job.now name numbers.now message.now (output out.old needed.old) (output out.new needed.new) result }
{
    match read_message(alloc, job, kind_in(name, numbers), message) {
        Ok(message) => give_line(alloc, name, numbers, message, out, needed),
        Err(why) => unread_answer(why),
    }
}

/// Writes the line of a log of a call and of what its caller was told, ended by a line feed.
///
/// `message` is the message that the call delivered, or that a grant or a release that is done
/// made. Of other calls it is not looked at.
///
/// # Errors
///
/// In this order: `WrongForm` if the bytes of `job` are not the name of a job, or the number is
/// that of no call; why the message is not decoded; `WrongForm` if the call returns no such code,
/// or a number that it passes or writes is outside its limits; then `NoRoom` or `NoMemory`.
pub fn log_line(
    alloc: Global,
    job: &[u8],
    numbers: &LoggedNumbers,
    message: &[u8],
    out: &mut [u8],
    needed: &mut usize,
) -> Answer
    ensures { IsLineOfNumbers (job_of job.now) numbers.now message.now (output out.old needed.old) (output out.new needed.new) result }
{
    let Some(job) = job_of(job) else {
        return Answer::WrongForm;
    };
    let Some(name) = CallName::of(numbers.call) else {
        return Answer::WrongForm;
    };
    give_named_line(alloc, &job, name, numbers, message, out, needed)
}
