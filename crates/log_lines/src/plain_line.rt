//! Lines of the calls that services make most, written as text: no value of their JSON is made.

ghost use Rattle.std.specs.Prelude.{◌≡◌, ◌++◌, IfOk, IfSome, OnOk, string_bytes, true};
ghost use Rattle.std.specs.List.{list_all};
ghost use Rattle.job_calls.specs.declared.call.ClusterCall.TheVariants as cluster_call;
ghost use Rattle.log_lines.specs.LineData.{key_data, line_data, machine_data};
ghost use Rattle.log_lines.specs.PlainLines.{IsCompactJson, is_plain, line_end};

use job_calls::ClusterCall;
use key_handle::KeyHandle;
use log_line::LoggedCall;
use slice_ranges::SliceKey;
use std::alloc::{AllocError, Global};

// Room for a line and its end.
const ROOM: usize = 256;

/// Returns whether a string stands in JSON as it is, between quotation marks.
pub fn is_plain(words: &str) -> bool
    ensures { result ≡ list_all is_plain words.now }
{
    words
        .as_bytes()
        .iter()
        .all(|&byte| byte >= b' ' && byte != b'"' && byte != b'\\')
}

// Writes the members that end the line of a call of a task.
fn end_line(line: &mut String, ticket: u64, task: u64) -> Result<(), AllocError>
    ensures { OnOk result (string_bytes line.new ≡ string_bytes line.old ++ line_end ticket task) }
{
    write!(line, r#","task":{task},"ticket":{ticket}}}"#)
}

// Writes the line of a call that asks for a key.
fn key_line(
    alloc: Global,
    ticket: u64,
    name: &str,
    task: u64,
    key: SliceKey,
    at: u64,
    reply: &str,
) -> Result<String, AllocError>
    requires name { list_all is_plain name.now ≡ true }
    requires reply { list_all is_plain reply.now ≡ true }
    ensures { IfOk result (λ line. IsCompactJson (string_bytes line) (key_data name.now ticket task key at reply.now)) }
{
    let key = key.value();
    let mut line = String::with_capacity(alloc, ROOM)?;
    write!(
        line,
        r#"{{"at":{at},"do":"{name}","reply":"{reply}","slice_key":{key}"#
    )?;
    end_line(&mut line, ticket, task)?;
    Ok(line)
}

// Writes the line of a call that checks a handle.
fn check_line(
    alloc: Global,
    ticket: u64,
    task: u64,
    handle: &KeyHandle,
    at: u64,
    reply: &str,
) -> Result<String, AllocError>
    requires { list_all is_plain reply.now ≡ true }
    ensures { IfOk result (λ line. IsCompactJson (string_bytes line) (machine_data ticket (cluster_call.Check task handle.now at) reply.now)) }
{
    let KeyHandle { life, position, .. } = *handle;
    let (key, owner) = (handle.key.value(), handle.task.number());
    let mut line = String::with_capacity(alloc, ROOM)?;
    write!(
        line,
        r#"{{"at":{at},"do":"check","handle":{{"life":{life},"position":{position},"slice_key":{key},"task":{owner}}}"#
    )?;
    write!(line, r#","reply":"{reply}""#)?;
    end_line(&mut line, ticket, task)?;
    Ok(line)
}

/// Writes a call at its ticket, with the plain words that its caller was told, as the line of a
/// log. Returns `None` for a call other than `serve`, `hold` and `check`.
pub fn plain_line(
    alloc: Global,
    ticket: u64,
    call: &LoggedCall,
    reply: &str,
) -> Result<Option<String>, AllocError>
    requires { list_all is_plain reply.now ≡ true }
    ensures { IfOk result (λ line. IfSome line (λ line. IsCompactJson (string_bytes line) (line_data ticket call.now reply.now))) }
{
    let LoggedCall::Whole(call) = call else {
        return Ok(None);
    };
    let line = match call {
        ClusterCall::Serve { task, key, at } => {
            key_line(alloc, ticket, "serve", *task, *key, *at, reply)?
        }
        ClusterCall::Hold { task, key, at } => {
            key_line(alloc, ticket, "hold", *task, *key, *at, reply)?
        }
        ClusterCall::Check { task, handle, at } => {
            check_line(alloc, ticket, *task, handle, *at, reply)?
        }
        _ => return Ok(None),
    };
    Ok(Some(line))
}
