//! The first reading that is not timely.

ghost use Rattle.std.specs.Prelude.{◌≡◌, Some};
ghost use Rattle.log_run.specs.Late.{AreWatched};
ghost use Rattle.log_run.specs.internals.Watching.{greater, greatest_after, late_after};

use job_calls::Reading;
use log_line::LogEntry;

/// A reading of a task's clock that is not timely.
///
/// The greatest earlier reading of the table's clock is more than the skew ahead of it.
#[derive(Clone, Copy, Debug, PartialEq, Eq)]
pub struct Late {
    /// The index of the task's call, in the order of the tickets.
    pub index: usize,
    /// The task's reading, in ticks.
    pub at: u64,
    /// The index of the table's call, in the order of the tickets; `None` if it was before the first
    /// of the calls.
    pub table_index: Option<usize>,
    /// The table's reading, in ticks.
    pub table_at: u64,
}

/// The greatest reading of the table's clock so far, and the index of its call.
#[derive(Clone, Copy)]
pub struct Greatest {
    /// The reading, in ticks; 0 if there is none.
    pub at: u64,
    /// The index of the call; `None` if it was before the first of the calls.
    pub index: Option<usize>,
}

fn greater(greatest: Greatest, at: u64, index: usize) -> Greatest
    ensures { result ≡ greater greatest at index }
{
    if at <= greatest.at {
        greatest
    } else {
        Greatest {
            at,
            index: Some(index),
        }
    }
}

fn greatest_after(greatest: Greatest, reading: Reading, index: usize) -> Greatest
    ensures { result ≡ greatest_after greatest reading index }
{
    match reading {
        Reading::TableClock(at) => greater(greatest, at, index),
        Reading::TaskClock(_) | Reading::NoClock => greatest,
    }
}

fn late_after(skew: u64, greatest: Greatest, reading: Reading, index: usize) -> Option<Late>
    ensures { result ≡ late_after skew greatest reading index }
{
    let Reading::TaskClock(at) = reading else {
        return None;
    };
    if at < greatest.at.saturating_sub(skew) {
        Some(Late {
            index,
            at,
            table_index: greatest.index,
            table_at: greatest.at,
        })
    } else {
        None
    }
}

/// Returns the first reading of a task's clock that is not timely, if there is one.
///
/// It comes with the greatest reading of the table's clock before it. `earlier` is the greatest one
/// before the first of the calls, 0 if there is none. Readings and `skew` are in ticks.
pub fn late_reading(skew: u64, earlier: u64, entries: &[LogEntry]) -> Option<Late>
    ensures { AreWatched skew earlier entries.now result }
{
    let mut greatest = Greatest {
        at: earlier,
        index: None,
    };
    for index in 0..entries.len() {
        let reading = entries[index].line.call.reading();
        let late = late_after(skew, greatest, reading, index);
        if late.is_some() {
            return late;
        }
        greatest = greatest_after(greatest, reading, index);
    }
    None
}
