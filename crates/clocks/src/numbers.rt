//! A task's clock as numbers.

ghost use Rattle.std.specs.Prelude.{◌≡◌, ◌↔◌, IsNone, IfSome};
ghost use Rattle.clocks.specs.Numbers.{AreRead, IsClockOf, sample_of};

use crate::drift::Drift;
use crate::refusal::ClockRefusal;
use crate::task_clock::{Sample, TaskClock};

/// A task's clock as numbers, for a caller that keeps it in memory of its own, as C does.
#[repr(C)]
#[derive(Clone, Copy, Debug, PartialEq, Eq)]
pub struct TaskClockNumbers {
    /// The drift: how many ticks more the table's clock may gain.
    pub extra: u64,
    /// While the local clock gains this many ticks, at least 1.
    pub per: u64,
    /// How many ticks more it may show because clocks show whole ticks.
    pub grain: u64,
    /// How many ticks ago the newest sample may have been sent.
    pub oldest: u64,
    /// 0 before the first sample, else 1.
    pub sampled: u64,
    /// The best sample: the local reading before it was sent.
    pub sent: u64,
    /// And the table's reading.
    pub reading: u64,
    /// The greatest `sent` of a sample.
    pub newest: u64,
    /// The last local reading.
    pub last: u64,
    /// The last value returned.
    pub given: u64,
}

impl TaskClockNumbers {
    /// Reads the clock of the numbers as [`TaskClock::read`] does, and keeps it in them. Returns
    /// `None` if `per` is 0.
    ///
    /// `None` and an error leave the numbers unchanged.
    #[inline]
    pub fn read(&mut self, now: u64) -> Option<Result<u64, ClockRefusal>>
        ensures { AreRead self.old self.new now result }
    {
        let clock = TaskClock::of_numbers(*self)?;
        match clock.quick_value(now) {
            Some(value) => {
                self.last = now;
                self.given = value;
                Some(Ok(value))
            }
            None => self.read_in_full(now),
        }
    }

    // The same without the quick value.
    #[cold]
    #[inline(never)]
    fn read_in_full(&mut self, now: u64) -> Option<Result<u64, ClockRefusal>>
        ensures { AreRead self.old self.new now result }
    {
        let mut clock = TaskClock::of_numbers(*self)?;
        match clock.read(now) {
            Ok(value) => {
                *self = clock.numbers();
                Some(Ok(value))
            }
            Err(why) => Some(Err(why)),
        }
    }
}

impl TaskClock {
    /// The numbers of the clock.
    pub fn numbers(&self) -> TaskClockNumbers
        ensures { IsClockOf result self.now }
    {
        let (sampled, sent, reading) = match self.best {
            Some(best) => (1, best.sent, best.reading),
            None => (0, 0, 0),
        };
        TaskClockNumbers {
            extra: self.drift.extra,
            per: self.drift.per,
            grain: self.drift.grain,
            oldest: self.oldest,
            sampled,
            sent,
            reading,
            newest: self.newest,
            last: self.last,
            given: self.given,
        }
    }

    /// The clock of the numbers, or `None` if `per` is 0.
    pub fn of_numbers(numbers: TaskClockNumbers) -> Option<Self>
        ensures none { IsNone result ↔ (numbers.per ≡ 0) }
        ensures some { IfSome result (IsClockOf numbers) }
    {
        match Drift::new(numbers.extra, numbers.per, numbers.grain) {
            Some(drift) => Some(TaskClock {
                drift,
                oldest: numbers.oldest,
                best: sample_of(&numbers),
                newest: numbers.newest,
                last: numbers.last,
                given: numbers.given,
            }),
            None => None,
        }
    }
}

// The best sample of the numbers.
fn sample_of(numbers: &TaskClockNumbers) -> Option<Sample>
    ensures { result ≡ sample_of numbers.now }
{
    if numbers.sampled == 0 {
        None
    } else {
        Some(Sample {
            sent: numbers.sent,
            reading: numbers.reading,
        })
    }
}
