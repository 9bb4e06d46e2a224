//! The calls of the library for C: with numbers and bytes.
//!
//! Each call returns an [`Answer`], and writes what else it gives through references. An answer has
//! one code, listed in `include/hourstable.h`, and sets some fields of [`AnswerDetails`]. Grants,
//! notes, assignments and kept values are messages.
//!
//! A call leaves its machine unchanged if it is refused, if its message cannot be decoded, if memory
//! runs out, or if a buffer is too short. It then writes nothing, except the length of a list that
//! does not fit, and what a grant or an assignment says beside the list.
#![tactic(auto)]

mod answer;
mod arguments;
pub mod assigners;
mod assignments;
pub mod clerks;
mod clock_evidence;
mod details;
mod grant_numbers;
mod job;
pub mod loads;
mod output;
mod plans;
mod policy_numbers;
mod refusals;
pub mod slicelets;
mod table_clocks;
pub mod tables;
mod task_clocks;
mod tokens;
mod unread;

pub use answer::Answer;
pub use assignments::{SliceNumbers, new_assignment, read_assignment, read_slice};
pub use clock_evidence::{evidence, weight_of};
pub use details::{AnswerDetails, LeaseDetails};
pub use grant_numbers::{GrantNumbers, read_grant};
pub use job::job_of;
pub use plans::plan;
pub use policy_numbers::{PlanPolicyNumbers, PolicyNumbers};
pub use table_clocks::{open_table_clock, read_table_clock};
pub use task_clocks::{new_task_clock, read_task_clock, sample_task_clock};
pub use tokens::{TokenBytes, accept_token, token, token_at};
