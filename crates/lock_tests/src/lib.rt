//! Tests of machines under the lock, and of tickets.
#![tactic(auto)]

#[cfg(test)]
mod counter;
#[cfg(test)]
mod counter_calls;
#[cfg(test)]
mod counter_memory;
#[cfg(test)]
mod counter_threads;
#[cfg(test)]
mod locks;
#[cfg(test)]
mod ticket_draws;
#[cfg(test)]
mod ticket_threads;
