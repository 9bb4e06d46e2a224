//! The calls of a table.

mod calls;
mod keeping;
mod row_numbers;
mod saving;
mod terms;
mod texts;

pub use calls::{commit, free, open_table, phase, propose, renew, restart, take};
pub use keeping::{kept, restore};
pub use row_numbers::RowNumbers;
pub use saving::{Ahead, save};
pub use terms::{PhaseNumbers, TermNumbers};
pub use texts::{committed, grant, rows};
