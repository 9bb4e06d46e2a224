//! What decides replies.

ghost use Rattle.std.specs.Prelude.{◌≡◌, IfOk, option_map};
ghost use Rattle.serde_json.specs.View.{view};
ghost use Rattle.log_trace_text.specs.Calls.{decided_data, number_of};

use crate::unsent::unsent_of;
use log_line::LogEntry;
use log_trace::LogLine as Told;
use reason_values::{LogLine, reason_json, unsent_json};
use serde_json::Value;
use std::alloc::{AllocError, Global};

/// Returns the number of the call at an index, if there is one.
pub(crate) fn number_of(entries: &[LogEntry], index: Option<usize>) -> Option<u64>
    ensures { result ≡ number_of entries.now index }
{
    let index = index?;
    match entries.get(index) {
        Some(_) => Some(index as u64 + 1),
        None => None,
    }
}

/// Writes what decides the reply to a call, if the call and the reply do not say it all.
///
/// `places` are the lines of the entries.
pub(crate) fn decided_json(
    alloc: Global,
    places: &[LogLine],
    entries: &[LogEntry],
    line: &Told,
) -> Result<Option<Value>, AllocError>
    ensures { IfOk result (λ v. option_map view v
        ≡ decided_data places.now entries.now line.now.unsent line.now.first_taking line.now.reason) }
{
    match (line.unsent, &line.reason) {
        (Some(found), _) => {
            let unsent = unsent_of(entries, found);
            Ok(Some(unsent_json(alloc, places, unsent)?))
        }
        (None, Some(reason)) => {
            let first = number_of(entries, line.first_taking);
            reason_json(alloc, places, first, reason)
        }
        (None, None) => Ok(None),
    }
}
