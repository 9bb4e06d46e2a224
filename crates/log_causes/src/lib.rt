//! The values from which the causes of wrong replies in a log are told, what the log may lack, and
//! how many calls each actor took.
#![tactic(auto)]

mod callers;
mod cause;
mod causes;
mod coarse;
mod comparing;
mod finding;
mod hint;
mod hints;
mod judging;
mod missing;
mod questions;
mod refusing;
mod taking;

pub use callers::{CountedCalls, Counts, counts_of, silent_tasks};
pub use cause::{Cause, Change, Changed, Member, Unsent};
pub use causes::unsent_for;
pub use coarse::coarse_count;
pub use comparing::MOST_WRONG_REPLIES;
pub use finding::Finding;
pub use hint::MissingOpen;
pub use hints::{Hints, hints_for};
pub use judging::{Found, find_calls};
pub use missing::MissingGrants;
pub use questions::{WrongCall, cause_of};
pub use taking::{first_taking, is_taken_away};
