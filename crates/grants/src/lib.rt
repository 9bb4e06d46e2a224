//! The values of a lease table and of slicelets: policies, terms, grants, rows, release notes, kept
//! values, and their calls with what these return.
#![tactic(auto)]

mod kept;
mod policy;
mod slicelet_call;
mod slicelet_error;
mod snapshot;
mod table_call;
mod table_error;
mod values;

pub use kept::{Kept, KeptFault};
pub use policy::{LONGEST_TERM, MOST_GRANTS, Policy, READINGS, policy_law};
pub use slicelet_call::{EndedNotes, SliceletCall, SliceletReply};
pub use slicelet_error::{SliceletError, Stranger};
pub use snapshot::{SnapshotFault, TableSnapshot};
pub use table_call::{TableCall, TableReply};
pub use table_error::TableError;
pub use values::{Grant, JobTerm, Phase, ReleaseNote, Row};
