//! Reading a script from a JSON value.

ghost use Rattle.std.specs.Prelude.{map};
ghost use Rattle.serde_json.specs.View.{view};
ghost use Rattle.program_io.specs.Reading.{Gives};
ghost use Rattle.service.specs.Steps.{step_of};
ghost use Rattle.service.specs.Scripts.{IsReadOrRefused, Answers, AnswersScript, head_of, steps_of, script_of};

use crate::step::step_of;
use faults::ScriptError;
use machines::{Duplicate, Listed};
use program_io::{Fault, Unread, array_of};
use replies::{job_member, script_job_of};
use serde_json::Value;
use std::alloc::{AllocError, Global};
use std::slice;
use world::{Job, Step};

/// The largest number of steps in a script.
const MOST_STEPS: usize = 4096;

/// A script: a job, and the steps of it.
#[derive(Drop)]
pub struct Script {
    pub job: Job,
    pub steps: Listed<Step>,
}

impl Duplicate for Script {
    fn copy(&self) -> Result<Script, AllocError> {
        Ok(Script {
            job: self.job,
            steps: self.steps.copy()?,
        })
    }
}

/// Returns the job of a script, and the elements after the job line.
///
/// # Errors
///
/// In this order: `NotArray`, `NoJob`, `BadJob`, `TooManySteps`.
#[tactic(auto, unfolding(crate::specs::Scripts::head_of))]
pub fn head_of(value: &Value) -> Result<(Job, &[Value]), ScriptError>
    ensures { IsReadOrRefused (λ p. (p.0, map view p.1.now)) result (head_of (view value.now)) }
{
    let Ok(elements) = array_of(value) else {
        return Err(ScriptError::NotArray);
    };
    let [line, elements @ ..] = elements else {
        return Err(ScriptError::NoJob);
    };
    let Ok(line) = job_member(line) else {
        return Err(ScriptError::NoJob);
    };
    let Ok(job) = script_job_of(line) else {
        return Err(ScriptError::BadJob);
    };
    if elements.len() > MOST_STEPS {
        return Err(ScriptError::TooManySteps);
    }
    Ok((job, elements))
}

// Reads the steps after the job line, or returns the place of the first element that is not a step.
#[tactic(auto, unfolding(crate::specs::Scripts::steps_of))]
fn steps_of(alloc: Global, job: Job, elements: &[Value]) -> Result<Listed<Step>, Fault<ScriptError>>
    ensures { Answers result (steps_of job (map view elements.now)) }
{
    let mut steps = Listed::new(alloc);
    for (i, element) in elements.iter().enumerate() {
        match step_of(alloc, job, element) {
            Ok(step) => steps.push(step)?,
            Err(Unread::WrongForm) => return Err(Fault::Input(ScriptError::BadStep(i + 1))),
            Err(Unread::Memory) => return Err(Fault::Memory),
        }
    }
    Ok(steps)
}

/// Reads one element of a script of this job as a step.
// The loop of a script is the only caller of `step_of`, so that each reader of steps is inlined
// into it.
#[tactic(auto, unfolding(crate::specs::Scripts::steps_of))]
pub fn lone_step(alloc: Global, job: Job, element: &Value) -> Result<Step, Unread>
    ensures { Gives result (step_of job (view element.now)) }
{
    match steps_of(alloc, job, slice::from_ref(element)) {
        Ok(steps) => Ok(steps.into_vec().pop().unwrap()),
        Err(Fault::Input(_)) => Err(Unread::WrongForm),
        Err(Fault::Memory) => Err(Unread::Memory),
        Err(Fault::Read | Fault::Write) => unreachable!(),
    }
}

/// Reads a script from a JSON value, or returns its first fault.
///
/// Only steps need memory. Every other fault is found without any.
#[tactic(auto, unfolding(crate::specs::Scripts::script_of))]
pub fn script_of(alloc: Global, value: &Value) -> Result<Script, Fault<ScriptError>>
    ensures { AnswersScript result (view value.now) }
{
    let (job, elements) = match head_of(value) {
        Ok(head) => head,
        Err(refusal) => return Err(Fault::Input(refusal)),
    };
    let steps = steps_of(alloc, job, elements)?;
    Ok(Script { job, steps })
}
