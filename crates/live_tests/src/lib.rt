//! Tests of audits, and of objects that threads share.
#![tactic(auto)]

#[cfg(test)]
mod calls;
#[cfg(test)]
mod going_on;
#[cfg(test)]
mod live_tasks;
#[cfg(test)]
mod objects;
#[cfg(test)]
mod refusals;
