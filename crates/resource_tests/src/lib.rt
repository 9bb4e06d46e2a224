//! Tests of what contracts leave open: that calls succeed where there is memory, what they answer
//! after memory was refused, and streams that fail, are slow or do not end.
//!
//! `tests/allocations/run` runs the tests whose names end in `without_memory` with each
//! allocation refused in turn.
#![tactic(auto)]

#[cfg(test)]
mod asking;
#[cfg(test)]
mod calls;
#[cfg(test)]
mod loads;
#[cfg(test)]
mod messages;
#[cfg(test)]
mod scripts;
#[cfg(test)]
mod stories;
#[cfg(test)]
mod streams;
#[cfg(test)]
mod values;
