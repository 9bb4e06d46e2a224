//! The values in the replies to accepted calls.
//!
//! [`Shared::write`](crate::Shared::write) says which reply a call gets, so each function here
//! takes only the reply that it opens.

ghost use Rattle.std.specs.Prelude.{◌≡◌};
ghost use Rattle.grants.specs.declared.table_call.TableReply.TheVariants as table_reply;
ghost use Rattle.grants.specs.declared.slicelet_call.SliceletReply.TheVariants as slicelet_reply;
ghost use Rattle.shared_objects.specs.Actors.{IsNamed};

use grants::{EndedNotes, Grant, JobTerm, ReleaseNote, SliceletReply, TableReply};

/// Returns the term in the reply to a `JobTake` or a `JobRenew`.
pub fn job_term(reply: TableReply) -> JobTerm
    requires { IsNamed table_reply.Term reply }
    ensures { reply ≡ table_reply.Term result }
{
    let TableReply::Term(term) = reply else {
        unreachable!()
    };
    term
}

/// Returns the generation in the reply to a `Commit`.
pub fn generation(reply: TableReply) -> u64
    requires { IsNamed table_reply.Committed reply }
    ensures { reply ≡ table_reply.Committed result }
{
    let TableReply::Committed(generation) = reply else {
        unreachable!()
    };
    generation
}

/// Returns the grant in the reply to a `Grant`.
pub fn grant(reply: TableReply) -> Grant
    requires { IsNamed table_reply.Granted reply }
    ensures { reply ≡ table_reply.Granted result }
{
    let TableReply::Granted(grant) = reply else {
        unreachable!()
    };
    grant
}

/// Returns the number of rows in the reply to a `Free`.
pub fn freed_rows(reply: TableReply) -> u64
    requires { IsNamed table_reply.Freed reply }
    ensures { reply ≡ table_reply.Freed result }
{
    let TableReply::Freed(count) = reply else {
        unreachable!()
    };
    count
}

/// Returns the number of rows in the reply to a `Restart`.
pub fn lost_rows(reply: TableReply) -> u64
    requires { IsNamed table_reply.Lost reply }
    ensures { reply ≡ table_reply.Lost result }
{
    let TableReply::Lost(count) = reply else {
        unreachable!()
    };
    count
}

/// Returns the note in the reply to a `Release`.
pub fn release_note(reply: SliceletReply) -> ReleaseNote
    requires { IsNamed slicelet_reply.Released reply }
    ensures { reply ≡ slicelet_reply.Released result }
{
    let SliceletReply::Released(note) = reply else {
        unreachable!()
    };
    note
}

/// Returns the notes in the reply to a `Resume`.
pub fn ended_notes(reply: SliceletReply) -> EndedNotes
    requires { IsNamed slicelet_reply.Resumed reply }
    ensures { reply ≡ slicelet_reply.Resumed result }
{
    let SliceletReply::Resumed(notes) = reply else {
        unreachable!()
    };
    notes
}
