//! A job, the calls of its machines, which are its table, slicelets and clerks, and their replies.
//!
//! A call carries what it delivers: the grant, note, handle or assignment itself.
#![tactic(auto)]

mod call;
mod copies;
mod error;
mod job;
mod record;
mod reply;
mod snapshot;
mod timing;

pub use call::ClusterCall;
pub use copies::{assignment_copies, clerk_copies, grant_copies};
pub use error::ClusterError;
pub use job::{Job, MOST_ASSIGNERS, MOST_CLERKS, MOST_LOGGED_CLERKS};
pub use record::CallRecord;
pub use reply::ClusterReply;
pub use snapshot::{ClusterSnapshot, MOST_MADE, ResumeFault, TaskSnapshot};
pub use timing::Reading;
