//! Why nothing sent before what a call delivers.

ghost use Rattle.std.specs.Prelude.{◌≡◌, slice_get};
ghost use Rattle.log_trace_text.specs.Unsent.{difference_of, later_of, member_of, other_of, unsent_of};

use log_causes::{Change, Member as Differing, Unsent as Found};
use log_line::LogEntry;
use reason_values::{Difference, Member, Unsent};

fn member_of(member: Differing) -> Member
    ensures { result ≡ member_of member }
{
    match member {
        Differing::Task => Member::Task,
        Differing::Life => Member::Life,
        Differing::Generation => Member::Generation,
        Differing::Ends => Member::Ends,
        Differing::Until => Member::Until,
        Differing::SliceKey => Member::SliceKey,
    }
}

fn difference_of(change: Change) -> Difference
    ensures { result ≡ difference_of change }
{
    match change {
        Change::Number {
            member,
            here,
            there,
        } => Difference::Number {
            member: member_of(member),
            here,
            there,
        },
        Change::Kind { here, there } => Difference::Kind { here, there },
        Change::Ranges => Difference::Ranges,
        Change::Slices => Difference::Slices,
    }
}

// Returns the later entry that sends it, if there is one at this index.
fn later_of(entries: &[LogEntry], index: usize) -> Unsent
    ensures { result ≡ later_of index (slice_get entries.now index) }
{
    match entries.get(index) {
        Some(entry) => Unsent::Later {
            call: index as u64 + 1,
            ticket: entry.line.ticket,
        },
        None => Unsent::Nothing,
    }
}

// Returns the entry that sent another one, if there is one at this index.
fn other_of(entries: &[LogEntry], index: usize, change: Change) -> Unsent
    ensures { result ≡ other_of index change (slice_get entries.now index) }
{
    match entries.get(index) {
        Some(_) => Unsent::Other {
            call: index as u64 + 1,
            difference: difference_of(change),
        },
        None => Unsent::Nothing,
    }
}

/// Returns the same with calls by their numbers from 1 in the place of indices of entries.
pub(crate) fn unsent_of(entries: &[LogEntry], found: Found) -> Unsent
    ensures { result ≡ unsent_of entries.now found }
{
    match found {
        Found::Later(index) => later_of(entries, index),
        Found::Other(what) => other_of(entries, what.place, what.change),
        Found::Nothing => Unsent::Nothing,
    }
}
