//! Whether the samples of logs keep a drift.

ghost use Rattle.std.specs.Prelude.{◌≡◌, ◌<◌, IfOk, length};
ghost use Rattle.log_trace_text.specs.Endings.{IsDriftFound, sample_fault_of, wrong_sample_of};

use clocks::Drift;
use log_line::LogEntry;
use log_run::{ClockFault, DriftFault, drift_fault};
use std::alloc::{AllocError, Global};
use trace_ends::{DriftFound, SampleFault, WrongSample};

fn sample_fault_of(why: ClockFault) -> SampleFault
    ensures { result ≡ sample_fault_of why }
{
    match why {
        ClockFault::Back => SampleFault::Back,
        ClockFault::SentAhead => SampleFault::Ahead,
        ClockFault::Beyond(most) => SampleFault::Beyond(most),
    }
}

fn wrong_sample_of(entries: &[LogEntry], fault: DriftFault) -> WrongSample
    requires { fault.index < length entries.now }
    ensures { result ≡ wrong_sample_of fault }
{
    WrongSample {
        call: fault.index as u64 + 1,
        sent: fault.taken.sample.sent,
        reading: fault.taken.sample.reading,
        now: fault.taken.now,
        why: sample_fault_of(fault.why),
    }
}

/// Returns whether the samples keep a drift, if one is given.
pub(crate) fn drift_found(
    alloc: Global,
    drift: Option<Drift>,
    entries: &[LogEntry],
) -> Result<Option<DriftFound>, AllocError>
    ensures { IfOk result (IsDriftFound drift entries.now) }
{
    let Some(drift) = drift else {
        return Ok(None);
    };
    match drift_fault(alloc, drift, entries)? {
        Some(fault) => Ok(Some(DriftFound::Wrong(wrong_sample_of(entries, fault)))),
        None => Ok(Some(DriftFound::Kept)),
    }
}
