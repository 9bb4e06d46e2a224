//! The calls of the table's clock.

ghost use Rattle.std.specs.Prelude.{◌≡◌};
ghost use Rattle.clocks.specs.TableClocks.{opened, table_answer, after_table_read};
ghost use Rattle.c_calls.specs.TableClocks.{read_code, read_out};

use crate::answer::Answer;
use clocks::TableClock;

/// Writes the clock of a new process, as [`TableClock::open`] makes it.
pub fn open_table_clock(clock: &mut TableClock, kept: u64, ahead: u64, now: u64) -> Answer
    ensures clock { clock.new ≡ opened kept ahead now }
    ensures done { result ≡ Answer.Done }
{
    *clock = TableClock::open(kept, ahead, now);
    Answer::Done
}

/// Writes the clock's reading to `out`. Refused as [`TableClock::read`] says.
pub fn read_table_clock(clock: &mut TableClock, now: u64, out: &mut u64) -> Answer
    ensures answer { result ≡ read_code (table_answer clock.old now) }
    ensures clock { clock.new ≡ after_table_read clock.old now (table_answer clock.old now) }
    ensures out { out.new ≡ read_out (table_answer clock.old now) out.old }
{
    match clock.read(now) {
        Ok(reading) => {
            *out = reading;
            Answer::Done
        }
        Err(why) => Answer::Clock(why),
    }
}
