//! Replies to the steps of a job as values, the lines that are written for them, and the job line.
#![tactic(auto)]

mod copies;
mod job;
mod key_member;
mod line;
mod plan_line;
mod reply;
mod told;
mod words;
mod written_lease;

pub use job::{job_member, job_of, script_job_of};
pub use key_member::{MOST_KEY_BYTES, key_at};
pub use line::{Hex, Line};
pub use reply::{OwnerList, Refusal, Reply};
pub use told::{Named, NextNumbers, refusal_by, table_reply, told_as};
pub use words::{RefusalWords, action_word};
pub use written_lease::{LeaseForm, WrittenLease};
