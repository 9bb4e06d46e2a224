//! The reasons of replies as values.
//!
//! For each call that a [`Cluster`](cluster::Cluster) makes, a caller takes these steps:
//!
//! - make the call, and ask [`reason_of`] for the values that decided the reply: those of the
//!   machines just before the call, from which the ground of the reply follows;
//! - add the call to the [`CallPlaces`], by which the next reasons tell where a lease was heard;
//! - ask [`GreatestReading::untimely`] whether the reading of the call is timely, and add it.
//!
//! [`made_so_far`] counts what a call may deliver by its number, and [`first_untimely`] finds the
//! readings by which calls are not timely.
#![tactic(auto)]

mod breaks;
mod laws;
mod made;
mod places;
mod question;
mod readings;
mod reason;
mod reasons;
mod refusals;
mod rule;
mod untimely;

pub use laws::{heard_law, place_law, taken_law, unbroken_law};
pub use made::{Delivery, made_so_far};
pub use places::{CallPlaces, HeardPlaces, TaskPlaces};
pub use question::Question;
pub use readings::GreatestReading;
pub use reason::{Break, KeyOwners, LeaseValues, Reason, RequestReason, RuleValues};
pub use reasons::reason_of;
pub use rule::request_reason;
pub use untimely::{PlacedReading, UntimelyReadings, first_untimely};
