//! The calls of a task's clock.

ghost use Rattle.std.specs.Prelude.{◌≡◌, ⊤};
ghost use Rattle.clocks.specs.TaskClocks.{sample_answer, read_answer};
ghost use Rattle.c_calls.specs.TaskClocks.{IsNew, OnTaskClock, IsSampled, IsRead};

use crate::answer::Answer;
use clocks::{Drift, TaskClock, TaskClockNumbers};

/// Writes a clock with no sample. Refused by `WrongForm` if `per` is 0.
pub fn new_task_clock(
    clock: &mut TaskClockNumbers,
    extra: u64,
    per: u64,
    grain: u64,
    oldest: u64,
) -> Answer
    ensures { IsNew extra per grain oldest clock.old clock.new result }
{
    match Drift::new(extra, per, grain) {
        Some(drift) => {
            *clock = TaskClock::new(drift, oldest).numbers();
            Answer::Done
        }
        None => Answer::WrongForm,
    }
}

/// Takes an answer of the table. Refused by `WrongForm` if the clock's `per` is 0, then as
/// [`TaskClock::sample`] says.
pub fn sample_task_clock(clock: &mut TaskClockNumbers, sent: u64, reading: u64, now: u64) -> Answer
    ensures { OnTaskClock clock.old clock.new result ⊤
        (λ known. IsSampled known sent reading now clock.old clock.new result (sample_answer known sent now)) }
{
    match TaskClock::of_numbers(*clock) {
        Some(mut known) => match known.sample(sent, reading, now) {
            Ok(()) => {
                *clock = known.numbers();
                Answer::Done
            }
            Err(why) => Answer::Clock(why),
        },
        None => Answer::WrongForm,
    }
}

/// Writes the clock's value to `out`. Refused by `WrongForm` if the clock's `per` is 0, then as
/// [`TaskClock::read`] says.
#[inline]
pub fn read_task_clock(clock: &mut TaskClockNumbers, now: u64, out: &mut u64) -> Answer
    ensures { OnTaskClock clock.old clock.new result (out.new ≡ out.old)
        (λ known. IsRead known now clock.old clock.new out.old out.new result (read_answer known now)) }
{
    match clock.read(now) {
        Some(Ok(value)) => {
            *out = value;
            Answer::Done
        }
        Some(Err(why)) => Answer::Clock(why),
        None => Answer::WrongForm,
    }
}
