//! The table's clock.

ghost use Rattle.std.specs.Prelude.{◌≡◌, ◌≤◌, IfOk};
ghost use Rattle.clocks.specs.TableClocks.{opened, table_answer, after_table_read};

use crate::refusal::ClockRefusal;

/// The table's clock, over restarts and hosts: it goes on from a reading that was kept, and gains
/// what the local clock of its process gains. While no process runs it stands still.
///
/// Before a reading is used, keep a value that is not below it. The clock of the next process is
/// opened with the last value kept. All readings are in ticks of one length.
#[repr(C)]
#[derive(Clone, Copy, Debug)]
pub struct TableClock {
    // What it showed when it was opened.
    pub(crate) start: u64,
    // The local reading then.
    pub(crate) opened: u64,
    // The value that was kept before; no reading is below it.
    pub(crate) kept: u64,
    // The last local reading.
    pub(crate) last: u64,
}

impl TableClock {
    /// Opens the clock in a new process: `kept` is the last value kept, 0 at first, and `now` the
    /// local reading. The clock starts `ahead` ticks below `kept`, or at 0 if `ahead` is more. Let
    /// `ahead` be at least how far above a reading values are kept, with the drift's grain and 1
    /// added (`restart_law`).
    pub fn open(kept: u64, ahead: u64, now: u64) -> Self
        ensures { result ≡ opened kept ahead now }
    {
        TableClock {
            start: kept.saturating_sub(ahead),
            opened: now,
            kept,
            last: now,
        }
    }

    /// Returns the clock's reading at a local reading: not below what was kept before, nor below an
    /// earlier reading.
    ///
    /// # Errors, in this order
    ///
    /// `LocalClockBack` if `now` is below an earlier local reading; `TooLarge` if the reading would
    /// not be below 2^64; `NotYet { until }` while it is below what was kept, `until`. An error
    /// leaves the clock unchanged.
    pub fn read(&mut self, now: u64) -> Result<u64, ClockRefusal>
        ensures answer { result ≡ table_answer self.old now }
        ensures clock { self.new ≡ after_table_read self.old now result }
        ensures kept { IfOk result (λ value. self.old.kept ≤ value) }
    {
        if now < self.last {
            return Err(ClockRefusal::LocalClockBack);
        }
        match self.start.checked_add(now.saturating_sub(self.opened)) {
            Some(value) => {
                if value < self.kept {
                    return Err(ClockRefusal::NotYet { until: self.kept });
                }
                self.last = now;
                Ok(value)
            }
            None => Err(ClockRefusal::TooLarge),
        }
    }
}
