//! A task that writes only while it may serve: an example of what a caller of the step machine
//! knows.
#![tactic(auto)]

mod writes;

pub use writes::write_if_served;
