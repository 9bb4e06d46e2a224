//! The readings by which calls are not timely.

ghost use Rattle.std.specs.Prelude.{◌≡◌, ◌+◌, ◌∷◌, length, MatchOption, slice_get};
ghost use Rattle.job_calls.specs.declared.timing.Reading.TheVariants.{TableClock};
ghost use Rattle.reasons.specs.Untimely.{AreNear, AreTimely, IsFirstAhead, IsFirstUntimely, IsGreatest, number_of};
ghost use Rattle.reasons.specs.internals.Ahead.{IsNearTo, IsUntimelyBy, ahead_at, ahead_of, greater};

use job_calls::Reading;

/// A reading of a clock.
#[derive(Clone, Copy, Debug, PartialEq, Eq)]
pub struct PlacedReading {
    /// The number of the call that reads it, from 1; `None` if earlier calls did.
    pub call: Option<u64>,
    /// The reading, in ticks.
    pub at: u64,
}

/// The first reading of a task's clock that is not timely, with two readings of the table's clock
/// before it.
#[derive(Clone, Copy, Debug, PartialEq, Eq)]
pub struct UntimelyReadings {
    /// The reading of the task's clock.
    pub task: PlacedReading,
    /// The first reading of the table's clock that is more than the skew above it.
    pub first: PlacedReading,
    /// The greatest reading of the table's clock before it, and of several the first.
    pub greatest: PlacedReading,
}

// Returns the number of a call, which earlier calls do not have.
fn number_of(call: usize) -> Option<u64>
    ensures { result ≡ number_of call }
{
    if call == 0 { None } else { Some(call as u64) }
}

// Returns what the call with this number reads; 0 stands for the earlier calls.
fn reading_of(earlier: u64, readings: &[Reading], call: usize) -> Option<Reading>
    ensures { result ≡ slice_get (TableClock earlier ∷ readings.now) call }
{
    if call == 0 {
        return Some(Reading::TableClock(earlier));
    }
    readings.get(call - 1).copied()
}

// Returns the reading of the table's clock, if it is more than the skew above `late`.
fn ahead_of(skew: u64, late: u64, reading: Reading) -> Option<u64>
    ensures { result ≡ ahead_of skew late reading }
{
    match reading {
        Reading::TableClock(early) if early > late && early - late > skew => Some(early),
        _ => None,
    }
}

// Returns the reading of the table's clock by this call, if it is more than the skew above `late`.
fn ahead_at(earlier: u64, readings: &[Reading], call: usize, skew: u64, late: u64) -> Option<u64>
    ensures { result ≡ ahead_at skew late (slice_get (TableClock earlier ∷ readings.now) call) }
{
    match reading_of(earlier, readings, call) {
        Some(reading) => ahead_of(skew, late, reading),
        None => None,
    }
}

// Returns the first reading of the table's clock before a call that is more than the skew above
// `late`, a reading of a task's clock.
fn first_ahead(
    earlier: u64,
    readings: &[Reading],
    before: usize,
    skew: u64,
    late: u64,
) -> Option<PlacedReading>
    ensures { MatchOption result (AreNear skew late (TableClock earlier ∷ readings.now) before)
        (IsFirstAhead skew late (TableClock earlier ∷ readings.now) before) }
{
    for call in 0..before {
        if let Some(at) = ahead_at(earlier, readings, call, skew, late) {
            let call = number_of(call);
            return Some(PlacedReading { call, at });
        }
    }
    None
}

// Returns the greatest reading of the table's clock after a call that reads this.
fn greater(greatest: PlacedReading, call: usize, reading: Reading) -> PlacedReading
    ensures { result ≡ greater greatest call reading }
{
    match reading {
        Reading::TableClock(at) if at > greatest.at => PlacedReading {
            call: number_of(call),
            at,
        },
        _ => greatest,
    }
}

// Returns the readings by which a call that reads this is not timely; `greatest` is the greatest
// reading of the table's clock before it.
fn untimely_at(
    earlier: u64,
    readings: &[Reading],
    call: usize,
    reading: Reading,
    skew: u64,
    greatest: PlacedReading,
) -> Option<UntimelyReadings>
    requires { IsGreatest (TableClock earlier ∷ readings.now) call greatest }
    ensures { MatchOption result (IsNearTo skew reading (TableClock earlier ∷ readings.now) call)
        (IsUntimelyBy skew reading (TableClock earlier ∷ readings.now) call greatest) }
{
    let Reading::TaskClock(late) = reading else {
        return None;
    };
    if greatest.at <= late || greatest.at - late <= skew {
        return None;
    }
    let Some(first) = first_ahead(earlier, readings, call, skew, late) else {
        return None;
    };
    let call = number_of(call);
    Some(UntimelyReadings {
        task: PlacedReading { call, at: late },
        first,
        greatest,
    })
}

/// Returns the readings by which calls are not timely; `None` if they are timely.
///
/// `readings` are what the calls read, in order; `earlier` is the greatest reading of the table's
/// clock in earlier calls, 0 if there is none. Readings and the skew are in ticks.
pub fn first_untimely(earlier: u64, readings: &[Reading], skew: u64) -> Option<UntimelyReadings>
    ensures { MatchOption result (AreTimely skew (TableClock earlier ∷ readings.now) (length readings.now + 1))
        (IsFirstUntimely skew (TableClock earlier ∷ readings.now)) }
{
    let mut greatest = PlacedReading {
        call: None,
        at: earlier,
    };
    for place in 0..readings.len() {
        let call = place + 1;
        let reading = readings[place];
        if let Some(untimely) = untimely_at(earlier, readings, call, reading, skew, greatest) {
            return Some(untimely);
        }
        greatest = greater(greatest, call, reading);
    }
    None
}
