//! The messages of calls.

ghost use Rattle.std.specs.Prelude.{◌≡◌, codes};
ghost use Rattle.wire.specs.Assignments.{assignment_of};
ghost use Rattle.wire.specs.Grants.{grant_of};
ghost use Rattle.wire.specs.Kept.{kept_of};
ghost use Rattle.wire.specs.Notes.{note_of};
ghost use Rattle.wire.specs.Refusals.{or_wrong};
ghost use Rattle.c_calls.specs.Reading.{IsReadFrom};
ghost use Rattle.log_line.specs.declared.line.LoggedCall.{LoggedCall};
ghost use Rattle.log_lines.specs.declared.numbers.LoggedNumbers.{LoggedNumbers};
ghost use Rattle.log_lines.specs.Calls.{assignment_in, call_in, grant_in, kept_in, note_in};
ghost use Rattle.log_lines.specs.Replies.{told_in};
ghost use Rattle.log_lines.specs.Messages.{IsMessageRead, kept_message, message_kind, message_read};
ghost use Rattle.log_lines.specs.declared.message.Message.TheVariants as message;

use crate::call_name::{CallName, TableCallName, TaskCallName};
use assignment::Assignment;
use grants::{Grant, Kept, ReleaseNote};
use log_line::KeptNumbers;
use std::alloc::Global;
use wire::{DecodeError, JobName, decode};

/// What kind of message a call has.
#[derive(Clone, Copy, Debug, PartialEq, Eq)]
pub enum MessageKind {
    /// None.
    Nothing,
    /// The assignment that it delivers.
    Assignment,
    /// The grant that it delivers or made.
    Grant,
    /// The note that it delivers or made.
    Note,
    /// The kept values that it delivers.
    Kept,
}

/// What the message of a call says.
#[derive(Debug, Drop)]
pub enum Message {
    /// The call has none.
    Nothing,
    /// An assignment.
    Assignment(Assignment),
    /// A grant.
    Grant(Grant),
    /// A note.
    Note(ReleaseNote),
    /// Kept values of a table: those that its grants change, and the committed generation, 0 for
    /// none.
    Kept {
        numbers: KeptNumbers,
        generation: u64,
    },
}

impl Message {
    /// Returns the assignment, if it is one.
    pub fn assignment(self) -> Option<Assignment>
        ensures { result ≡ assignment_in self }
    {
        match self {
            Message::Assignment(assignment) => Some(assignment),
            _ => None,
        }
    }

    /// Returns the grant, if it is one.
    pub fn grant(self) -> Option<Grant>
        ensures { result ≡ grant_in self }
    {
        match self {
            Message::Grant(grant) => Some(grant),
            _ => None,
        }
    }

    /// Returns the note, if it is one.
    pub fn note(&self) -> Option<ReleaseNote>
        ensures { result ≡ note_in self.now }
    {
        match self {
            Message::Note(note) => Some(*note),
            _ => None,
        }
    }

    /// Returns the kept values that grants change, if it has some.
    pub fn kept(&self) -> Option<KeptNumbers>
        ensures { result ≡ kept_in self.now }
    {
        match self {
            Message::Kept { numbers, .. } => Some(*numbers),
            _ => None,
        }
    }
}

impl Message {
    /// Returns what a call of this name delivers, and what it made.
    pub fn part(self, name: CallName) -> (Message, Message)
        ensures delivered { (n : LoggedNumbers) → call_in name n result.0 ≡ call_in name n self }
        ensures made { (n : LoggedNumbers) (call : LoggedCall) → told_in name n result.1 call ≡ told_in name n self call }
    {
        match (name, self) {
            (CallName::Table(TableCallName::Grant) | CallName::Task(TaskCallName::Release), made) =>
                { (Message::Nothing, made) }
            (
                CallName::Restore,
                Message::Kept {
                    numbers,
                    generation,
                },
            ) => (
                Message::Kept {
                    numbers,
                    generation,
                },
                Message::Kept {
                    numbers,
                    generation,
                },
            ),
            (_, delivered) => (delivered, Message::Nothing),
        }
    }
}

/// Returns which message a call has, by whether it is done.
pub fn message_kind(name: CallName, is_done: bool) -> MessageKind
    ensures { result ≡ message_kind name is_done }
{
    match name {
        CallName::Table(TableCallName::Propose) | CallName::Learn => MessageKind::Assignment,
        CallName::Table(TableCallName::Free) => MessageKind::Note,
        CallName::Table(TableCallName::Grant) if is_done => MessageKind::Grant,
        CallName::Task(TaskCallName::Hear) => MessageKind::Grant,
        CallName::Task(TaskCallName::Release) if is_done => MessageKind::Note,
        CallName::Restore => MessageKind::Kept,
        _ => MessageKind::Nothing,
    }
}

fn read_assignment(alloc: Global, job: &JobName, bytes: &[u8]) -> Result<Message, DecodeError>
    ensures { IsReadFrom job.now (codes "assignment") assignment_of bytes.now (λ read. result ≡ message_read message.Assignment read) }
{
    match decode::<Assignment>(alloc, job, bytes) {
        Ok(assignment) => Ok(Message::Assignment(assignment)),
        Err(why) => Err(why),
    }
}

fn read_grant(alloc: Global, job: &JobName, bytes: &[u8]) -> Result<Message, DecodeError>
    ensures { IsReadFrom job.now (codes "grant") grant_of bytes.now (λ read. result ≡ message_read message.Grant read) }
{
    match decode::<Grant>(alloc, job, bytes) {
        Ok(grant) => Ok(Message::Grant(grant)),
        Err(why) => Err(why),
    }
}

fn read_note(alloc: Global, job: &JobName, bytes: &[u8]) -> Result<Message, DecodeError>
    ensures { IsReadFrom job.now (codes "note") (λ numerals d. or_wrong (note_of numerals d)) bytes.now
        (λ read. result ≡ message_read message.Note read) }
{
    match decode::<ReleaseNote>(alloc, job, bytes) {
        Ok(note) => Ok(Message::Note(note)),
        Err(why) => Err(why),
    }
}

// Returns what the line of a restored table says of kept values.
fn kept_message(kept: &Kept) -> Message
    ensures { result ≡ kept_message kept.now }
{
    Message::Kept {
        numbers: KeptNumbers {
            last: kept.last,
            granted: kept.granted,
            deadline: kept.deadline,
        },
        generation: match &kept.committed {
            Some(committed) => committed.generation(),
            None => 0,
        },
    }
}

fn read_kept(alloc: Global, job: &JobName, bytes: &[u8]) -> Result<Message, DecodeError>
    ensures { IsReadFrom job.now (codes "kept") kept_of bytes.now (λ read. result ≡ message_read kept_message read) }
{
    match decode::<Kept>(alloc, job, bytes) {
        Ok(kept) => Ok(kept_message(&kept)),
        Err(why) => Err(why),
    }
}

/// Decodes a message of a kind of the job, or nothing if the call has none.
pub fn read_message(
    alloc: Global,
    job: &JobName,
    kind: MessageKind,
    bytes: &[u8],
) -> Result<Message, DecodeError>
    ensures { IsMessageRead kind job.now bytes.now (λ read. result ≡ read) }
{
    match kind {
        MessageKind::Nothing => Ok(Message::Nothing),
        MessageKind::Assignment => read_assignment(alloc, job, bytes),
        MessageKind::Grant => read_grant(alloc, job, bytes),
        MessageKind::Note => read_note(alloc, job, bytes),
        MessageKind::Kept => read_kept(alloc, job, bytes),
    }
}
