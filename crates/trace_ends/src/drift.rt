//! Whether the samples of logs keep a drift.

ghost use Rattle.std.specs.Prelude.{◌≡◌, IfOk, option_map};
ghost use Rattle.serde_json.specs.View.{members_view, view};
ghost use Rattle.trace_ends.specs.Ends.{drift_data, fault_word, most_of, sample_data};
ghost use Rattle.reply_values.specs.Values.{large_data};

use reason_values::{LogLine, put_place};
use reply_values::{large_json, put_if};
use serde_json::{Map, Value, json, put};
use std::alloc::{AllocError, Global};

/// Why a sample shows that clocks did not keep their drift.
#[derive(Clone, Copy, Debug)]
pub enum SampleFault {
    /// The local clock is below an earlier reading of it.
    Back,
    /// The request is said to be sent after its answer was taken.
    Ahead,
    /// By the samples before, the table's clock read at most this, in ticks.
    Beyond(u64),
}

/// A sample that shows that clocks did not keep their drift.
#[derive(Clone, Copy, Debug)]
pub struct WrongSample {
    /// The number of its call.
    pub call: u64,
    /// The local clock when the request was sent, in ticks.
    pub sent: u64,
    /// The table's reading in the answer, in ticks.
    pub reading: u64,
    /// The local clock when the answer was taken, in ticks.
    pub now: u64,
    /// What is wrong with it.
    pub why: SampleFault,
}

/// Whether the samples keep a drift.
#[derive(Clone, Copy, Debug)]
pub enum DriftFound {
    Kept,
    /// The first sample that does not.
    Wrong(WrongSample),
}

fn fault_word(why: SampleFault) -> &'static str
    ensures { result.now ≡ fault_word why }
{
    match why {
        SampleFault::Back => "back",
        SampleFault::Ahead => "ahead",
        SampleFault::Beyond(_) => "beyond",
    }
}

// Writes the most that the table's clock could have shown, if that is what is wrong.
fn most_json(alloc: Global, why: SampleFault) -> Result<Option<Value>, AllocError>
    ensures { IfOk result (λ v. option_map view v ≡ option_map large_data (most_of why)) }
{
    match why {
        SampleFault::Beyond(most) => Ok(Some(large_json(alloc, most)?)),
        SampleFault::Back | SampleFault::Ahead => Ok(None),
    }
}

fn sample_json(alloc: Global, lines: &[LogLine], wrong: &WrongSample) -> Result<Value, AllocError>
    ensures { IfOk result (λ v. view v ≡ sample_data lines.now wrong.entry.now) }
{
    let mut map = Map::new(alloc);
    put_place(&mut map, alloc, lines, wrong.call)?;
    put(&mut map, alloc, "kept", Value::Bool(false))?;
    put(&mut map, alloc, "now", large_json(alloc, wrong.now)?)?;
    put(
        &mut map,
        alloc,
        "reading",
        large_json(alloc, wrong.reading)?,
    )?;
    put(&mut map, alloc, "sent", large_json(alloc, wrong.sent)?)?;
    let why = Value::try_from_str(alloc, fault_word(wrong.why))?;
    put(&mut map, alloc, "why", why)?;
    put_if(&mut map, alloc, "most", most_json(alloc, wrong.why)?)?;
    Ok(Value::Object(map))
}

/// Writes whether the samples keep a drift.
pub(crate) fn drift_json(
    alloc: Global,
    lines: &[LogLine],
    found: &DriftFound,
) -> Result<Value, AllocError>
    ensures { IfOk result (λ v. view v ≡ drift_data lines.now found.now) }
{
    match found {
        DriftFound::Kept => json!(in alloc; {"kept": true}),
        DriftFound::Wrong(wrong) => sample_json(alloc, lines, wrong),
    }
}
