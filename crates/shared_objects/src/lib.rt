//! The table, the tasks and the clerks of a key ownership service, as objects that threads share.
//!
//! [`SharedTable`], [`SharedSlicelet`] and [`SharedClerk`] put the machine of an [`Actor`] under a
//! lock of lanes, and have a call for each of the machine's. All are [`Shared`]:
//! [`Shared::write`] makes any call of the machine, and [`Shared::ask`] any call that only looks at
//! it. Each takes the caller's pass of that lock and its [`Draws`], draws one ticket while it holds
//! its lanes, and returns the machine's answer. A call that writes no entry also returns its
//! record.
#![tactic(auto)]

mod actor;
mod draws;
mod error;
mod gate;
mod queries;
mod query;
mod read;
mod replies;
mod shared;
mod shared_clerk;
mod shared_slicelet;
mod shared_table;
mod when;
mod write;

pub use actor::Actor;
pub use draws::Draws;
pub use error::{CallError, Recorded, RefusedCall, RowsError, TryError};
pub use gate::{Gate, OpenGate, Turn};
pub use queries::{AskCheck, AskHold, AskLook, AskPhase, AskServe};
pub use query::{Query, RecordedQuery};
pub use replies::{ended_notes, freed_rows, generation, grant, job_term, lost_rows, release_note};
pub use shared::{NotClosed, Shared};
pub use shared_clerk::SharedClerk;
pub use shared_slicelet::SharedSlicelet;
pub use shared_table::{Proposal, SharedTable, TaskLife};
pub use when::When;
