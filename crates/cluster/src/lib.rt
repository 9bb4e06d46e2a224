//! The machines of a job, which are its table, slicelets and clerks, and the reply to each of their
//! calls.
//!
//! A call carries what it delivers: the grant, note, handle or assignment itself. Every law here is
//! about all runs of such calls.
#![tactic(auto)]

mod actors;
mod clerks;
mod cluster;
mod cluster_copy;
mod counts;
mod deliveries;
mod known;
mod laws;
mod numbers;
mod resuming;
mod table;
mod tasks;
mod timeliness;

pub use crate::cluster::Cluster;
pub use actors::{is_within, place_of};
pub use known::KnownHandle;
pub use laws::{
    continued_law, covers_law, handle_law, interval_law, known_generations_law, order_law,
    owner_law, reached_law, rule_law, sent_law, told_law,
};
pub use timeliness::Timeliness;
