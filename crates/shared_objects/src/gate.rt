//! What workers call inside their shared calls.

use crate::when::When;
use std::sync::Wait;

/// A hook that each worker calls inside its shared call, after its draw and while it holds its
/// lane.
pub trait Gate {
    /// Runs inside a shared call, with the numbers of the worker and its ask, and the ticket drawn.
    ///
    /// `ask` counts the asks of the worker from 0. The workers of a job are numbered from 1 through
    /// all its tasks: if each task has `workers` workers, worker `w` of task `t`, both counted from
    /// 1, has the number `(t - 1) * workers + w`.
    fn inside<R: Wait>(&self, rt: &R, worker: u32, ask: u32, ticket: u64);
}

/// A gate that does nothing.
#[derive(Clone, Copy, Debug)]
pub struct OpenGate;

impl Gate for OpenGate {
    fn inside<R: Wait>(&self, _rt: &R, _worker: u32, _ask: u32, _ticket: u64) {}
}

/// One ask of a worker: the gate that it calls, its own number, and the number of the ask.
#[derive(Drop)]
pub struct Turn<'g, G> {
    /// The gate.
    pub gate: &'g G,
    /// The number of the worker, from 1.
    pub worker: u32,
    /// The number of the ask, from 0.
    pub ask: u32,
    /// The reading of the ask.
    pub when: When,
}
