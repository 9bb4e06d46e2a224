//! A task's clock.

ghost use Rattle.std.specs.Prelude.{◌≡◌, ◌+◌, ◌<◌, ◌≤◌, ◌^◌, [], ◌∷◌, ℕ, Some, MatchOption, IfOk, IfSome, Ok};
ghost use Rattle.std.specs.List.{AllByRecursion};
ghost use Rattle.clocks.specs.TaskClocks.{reach, is_better, better_of, new_clock, sample_answer, after_sample, read_answer, after_read, answer_by};
ghost use Rattle.clocks.specs.Pasts.{Past, Sampled, TaskRead, IsAtMost, KeepsDrift, SamplesAreAnswers};
ghost use Rattle.clocks.specs.Timely.{LeadsTo};

use crate::drift::Drift;
use crate::refusal::ClockRefusal;

/// An answer of the table, as a task takes it.
#[derive(Clone, Copy, Debug, PartialEq, Eq)]
pub struct Sample {
    /// The task's local clock before the request was sent, in ticks.
    pub sent: u64,
    /// The table's clock while the request was handled, in ticks.
    pub reading: u64,
}

impl Sample {
    // How far the table's clock may have come by a local reading, without the grain; `None` if that
    // is above the largest reading.
    fn reach(self, drift: Drift, at: u64) -> Option<u64>
        ensures { MatchOption result (2 ^ 64 ≤ reach drift self at) (λ most. most ≡ reach drift self at) }
    {
        match drift.most_gain(at.saturating_sub(self.sent)) {
            Some(most) => most.checked_add(self.reading),
            None => None,
        }
    }

    // Whether this sample's reach is no more than another's, from the later of the two on. They are
    // compared where the later one was sent: its reach is a whole number there, so rounding the
    // other changes nothing.
    fn is_better(self, new: Sample, drift: Drift) -> bool
        ensures { result ≡ is_better drift self new }
    {
        if self.sent <= new.sent {
            match self.reach(drift, new.sent) {
                Some(reach) => reach <= new.reading,
                None => false,
            }
        } else {
            match new.reach(drift, self.sent) {
                Some(reach) => self.reading < reach,
                None => true,
            }
        }
    }
}

/// A clock of a task that is never behind the table's: at a local reading it returns the least
/// value that no earlier reading of the table's clock can be above.
///
/// It keeps one sample, the best of all that it took, and no memory. All readings are in ticks of
/// one length.
#[derive(Clone, Copy, Debug)]
pub struct TaskClock {
    pub(crate) drift: Drift,
    // How many ticks ago the newest sample may have been sent.
    pub(crate) oldest: u64,
    // The sample of least reach.
    pub(crate) best: Option<Sample>,
    // The greatest `sent` of a sample, 0 before the first.
    pub(crate) newest: u64,
    // The last local reading.
    pub(crate) last: u64,
    // The last value returned, 0 before the first.
    pub(crate) given: u64,
}

impl TaskClock {
    /// Creates a clock with no sample. `oldest` is how many local ticks ago the newest sample may
    /// have been sent when the clock is read; `u64::MAX` sets no limit.
    pub fn new(drift: Drift, oldest: u64) -> Self
        ensures clock { result ≡ new_clock drift oldest }
        ensures past { LeadsTo [] result }
    {
        TaskClock {
            drift,
            oldest,
            best: None,
            newest: 0,
            last: 0,
            given: 0,
        }
    }

    /// Takes an answer of the table: the local clock before the request was sent, the table's
    /// reading in the answer, and the local clock now.
    ///
    /// # Errors, in this order
    ///
    /// `LocalClockBack` if `now` is below an earlier local reading, `SentAhead` if `sent` is above
    /// `now`. An error leaves the clock unchanged.
    pub fn sample(&mut self, sent: u64, reading: u64, now: u64) -> Result<(), ClockRefusal>
        ensures answer { result ≡ sample_answer self.old sent now }
        ensures clock { self.new ≡ after_sample self.old now (record { sent = sent; reading = reading }) result }
        ensures past { (past : Past) → LeadsTo past self.old → LeadsTo (Sampled now (record { sent = sent; reading = reading }) ∷ past) self.new }
    {
        if now < self.last {
            return Err(ClockRefusal::LocalClockBack);
        }
        if now < sent {
            return Err(ClockRefusal::SentAhead);
        }
        let sample = Sample { sent, reading };
        self.best = Some(self.better_of(sample));
        self.newest = self.newest.max(sent);
        self.last = now;
        Ok(())
    }

    // The sample that is kept after one more.
    fn better_of(&self, new: Sample) -> Sample
        ensures { result ≡ better_of self.now.drift self.now.best new }
    {
        match self.best {
            Some(old) => {
                if old.is_better(new, self.drift) {
                    old
                } else {
                    new
                }
            }
            None => new,
        }
    }

    /// Returns the clock's value at a local reading: at or above each earlier reading of the
    /// table's clock, and not below a value that it returned before.
    ///
    /// # Errors, in this order
    ///
    /// `LocalClockBack` if `now` is below an earlier local reading; `NoSample` before the first
    /// sample; `TooOld` if the newest sample was sent more than `oldest` ticks before `now`;
    /// `TooLarge` if the value would not be below 2^64. An error leaves the clock unchanged.
    pub fn read(&mut self, now: u64) -> Result<u64, ClockRefusal>
        ensures answer { result ≡ read_answer self.old now }
        ensures clock { self.new ≡ after_read self.old now result }
        ensures past { (past : Past) → LeadsTo past self.old → LeadsTo (TaskRead now ∷ past) self.new }
        ensures timely { (past : Past) → LeadsTo past self.old → KeepsDrift self.old.drift (TaskRead now ∷ past) → SamplesAreAnswers past
            → IfOk result (λ value. AllByRecursion (IsAtMost value) past) }
    {
        if now < self.last {
            return Err(ClockRefusal::LocalClockBack);
        }
        let value = self.bound(now)?;
        self.last = now;
        self.given = value;
        Ok(value)
    }

    // The value to return at a local reading if 64 bits are enough to compute it; `None` also if
    // the clock refuses.
    #[inline]
    pub(crate) fn quick_value(&self, now: u64) -> Option<u64>
        ensures { IfSome result (λ value. read_answer self.now now ≡ Ok value) }
    {
        let sample = self.best?;
        if now < self.last || self.oldest < now.saturating_sub(self.newest) {
            return None;
        }
        let bound = self
            .drift
            .quick_gain(now.saturating_sub(sample.sent))?
            .checked_add(sample.reading)?
            .checked_add(self.drift.grain)?;
        Some(bound.max(self.given))
    }

    // The value to return at a local reading.
    fn bound(&self, now: u64) -> Result<u64, ClockRefusal>
        ensures { result ≡ answer_by self.now now self.now.best }
    {
        match self.best {
            None => Err(ClockRefusal::NoSample),
            Some(sample) => {
                if now.saturating_sub(self.newest) > self.oldest {
                    return Err(ClockRefusal::TooOld);
                }
                match sample.reach(self.drift, now) {
                    None => Err(ClockRefusal::TooLarge),
                    Some(reach) => match reach.checked_add(self.drift.grain) {
                        None => Err(ClockRefusal::TooLarge),
                        Some(bound) => Ok(bound.max(self.given)),
                    },
                }
            }
        }
    }
}
