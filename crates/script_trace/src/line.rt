//! What is told of a step.

use crate::delivered::Delivered;
use reasons::Reason;
use replies::Reply;

/// What decides the reply to a step.
#[derive(Debug, Drop)]
pub enum StepReason {
    /// The values of the machines just before the call that the step makes.
    Machines(Reason),
    /// The step names what was not made: the greatest number that was made so far, 0 for none.
    Made(u64),
}

/// A step of a script that was played.
#[derive(Debug, Drop)]
pub struct TraceLine {
    /// The number of the step, from 1.
    pub step: u64,
    /// What the step delivers by its number; `None` if nothing with this number was made, or it
    /// delivers nothing.
    pub delivered: Option<Delivered>,
    pub reply: Reply,
    /// What decides the reply; `None` if the step and the reply say everything.
    pub reason: Option<StepReason>,
    /// If the step reads a task's clock more than the skew below a reading of the table's before
    /// it: the greatest such reading, in ticks.
    pub untimely: Option<u64>,
    /// If a `serve` was allowed to a task that does not own the key in the committed assignment:
    /// its generation.
    pub not_owner: Option<u64>,
}
