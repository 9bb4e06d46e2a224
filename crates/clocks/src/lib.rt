//! Clocks that are timely with nothing synchronised: a task's clock, made from answers of the table,
//! and the table's own.
//!
//! A task reads its local clock before it asks the table, and the answer carries a reading of the
//! table's clock. At a later local reading the table's clock has gained at most what the drift allows
//! for the local time since the request was sent. A `TaskClock` returns that bound: it is never below
//! an earlier reading of the table. No clock is read here: calls take numbers and return numbers.
#![tactic(auto)]

mod drift;
mod laws;
mod numbers;
mod refusal;
mod rounding;
mod table_clock;
mod task_clock;

pub use drift::{Drift, TICK_GRAIN};
pub use laws::{close_law, keeping_law, restart_law, ticks_law, timely_law, worked_law};
pub use numbers::TaskClockNumbers;
pub use refusal::ClockRefusal;
pub use table_clock::TableClock;
pub use task_clock::{Sample, TaskClock};

#[cfg(test)]
mod tests;
