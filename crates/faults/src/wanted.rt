//! What a member of a step must be.

use crate::found::Found;
use job_calls::Job;
use program_io::{Number, Unread, list_of};
use replies::{LeaseForm, MOST_KEY_BYTES};
use serde_json::Value;
use std::alloc::{AllocError, Global};
use std::fmt;
use wire::SliceForm;

/// What a member must be. The same name means the same in every step.
#[derive(Clone, Copy, Debug, PartialEq, Eq)]
pub enum Wanted {
    /// A whole number from the first to the second.
    Between(u64, u64),
    /// The number of an actor of the job, which has this many.
    Actor(&'static str, u64),
    /// A key.
    Key,
    /// True or false.
    Flag,
    /// A kind of lease.
    Kind,
    /// Slices with their owners.
    Slices,
    /// Leases, as in `judge`.
    Leases,
    /// Tasks in rising order.
    Tasks,
    /// Loads.
    Loads,
    /// The least and the greatest number of owners of a slice.
    Redundancy,
}

impl Wanted {
    /// Returns what the job's member with this name must be.
    ///
    /// The skew may be any number here, and the job may have so many clerks.
    pub fn of_job(member: &str, most_clerks: u64) -> Wanted {
        match member {
            "redundancy" => Wanted::Redundancy,
            "skew" => Wanted::Between(0, u64::MAX),
            "assigners" => Wanted::Between(1, 8),
            "tasks" => Wanted::Between(1, 64),
            "clerks" => Wanted::Between(1, most_clerks),
            _ => Wanted::Between(1, 1 << 32),
        }
    }

    /// Returns what a step's member with this name must be, in a script of this job.
    pub fn of(job: Job, member: &str) -> Wanted {
        match member {
            "assigner" => Wanted::Actor("assigners", job.assigners()),
            "task" => Wanted::Actor("tasks", job.tasks()),
            "clerk" => Wanted::Actor("clerks", job.clerks()),
            "life" => Wanted::Between(0, (1 << 32) - 1),
            "churn" => Wanted::Between(0, 1 << 63),
            "most" => Wanted::Between(1, 1024),
            "key" => Wanted::Key,
            "up" | "wanted" => Wanted::Flag,
            "kind" => Wanted::Kind,
            "slices" => Wanted::Slices,
            "leases" => Wanted::Leases,
            "tasks" => Wanted::Tasks,
            "loads" => Wanted::Loads,
            _ => Wanted::Between(0, u64::MAX),
        }
    }

    /// Whether a value is what it must be.
    pub fn is_met(self, alloc: Global, value: &Value) -> Result<bool, AllocError> {
        match self {
            Wanted::Between(low, high) => Ok(is_between(value, low, high)),
            Wanted::Actor(_, most) => Ok(is_between(value, 1, most)),
            Wanted::Key => Ok(
                value
                    .as_str()
                    .is_some_and(|key| key.len() <= MOST_KEY_BYTES),
            ),
            Wanted::Flag => Ok(value.as_bool().is_some()),
            Wanted::Kind => Ok(matches!(value.as_str(), Some("guard" | "bridge"))),
            Wanted::Slices => is_read(list_of::<SliceForm>(alloc, value)),
            Wanted::Leases => {
                Ok(is_read(list_of::<LeaseForm>(alloc, value))? && has_one_of_each_kind(value))
            }
            Wanted::Tasks => Ok(is_rising(value)),
            Wanted::Loads => is_read(list_of::<Number>(alloc, value)),
            Wanted::Redundancy => Ok(is_redundancy(value)),
        }
    }
}

fn is_between(value: &Value, low: u64, high: u64) -> bool {
    value
        .as_u64()
        .is_some_and(|number| low <= number && number <= high)
}

fn is_read<T: Drop>(read: Result<T, Unread>) -> Result<bool, AllocError> {
    match read {
        Ok(_value) => Ok(true),
        Err(Unread::WrongForm) => Ok(false),
        Err(Unread::Memory) => Err(AllocError),
    }
}

// Whether an array has at most one lease of each kind.
fn has_one_of_each_kind(leases: &Value) -> bool {
    let Some(leases) = leases.as_array() else {
        return false;
    };
    let mut guard = false;
    let mut bridge = false;
    for lease in leases {
        match lease.get("kind").and_then(Value::as_str) {
            Some("guard") if guard => return false,
            Some("guard") => guard = true,
            Some("bridge") if bridge => return false,
            Some("bridge") => bridge = true,
            _ => {}
        }
    }
    true
}

// Whether a value is an array of task numbers in strictly rising order.
fn is_rising(value: &Value) -> bool {
    let Some(tasks) = value.as_array() else {
        return false;
    };
    let mut last = 0;
    for task in tasks {
        match task.as_u64() {
            Some(number) if last < number && number <= 64 => last = number,
            _ => return false,
        }
    }
    true
}

// Whether a value is a redundancy: a number or a pair of numbers, from 1 to 5.
fn is_redundancy(value: &Value) -> bool {
    let (low, high) = match value.as_array() {
        None => (value.as_u64(), value.as_u64()),
        Some(list) => match list.as_slice() {
            [low, high] => (low.as_u64(), high.as_u64()),
            _ => (None, None),
        },
    };
    match (low, high) {
        (Some(low), Some(high)) => 1 <= low && low <= high && high <= 5,
        _ => false,
    }
}

impl fmt::Display for Wanted {
    fn fmt<W: fmt::Write>(&self, f: &mut fmt::Formatter<W>) -> fmt::Result {
        match *self {
            Wanted::Between(0, u64::MAX) => {
                f.write_str("a whole number below 18446744073709551616")
            }
            Wanted::Between(0, 4_294_967_295) => f.write_str("a whole number below 4294967296"),
            Wanted::Between(low, high) => write!(f, "a whole number from {low} to {high}"),
            Wanted::Actor(_, most) => write!(f, "a whole number from 1 to {most}"),
            Wanted::Key => write!(f, "a string of at most {MOST_KEY_BYTES} bytes"),
            Wanted::Flag => f.write_str("true or false"),
            Wanted::Kind => f.write_str("\"guard\" or \"bridge\""),
            Wanted::Slices => f.write_str("an array of slices [start, [owner, ..]]"),
            Wanted::Leases => f.write_str(
                "an array of leases {\"kind\", \"generation\", \"ranges\", \"ends\"}, at most one of each kind",
            ),
            Wanted::Tasks => f.write_str("an array of rising numbers from 1 to 64"),
            Wanted::Loads => f.write_str("an array of whole numbers"),
            Wanted::Redundancy => {
                f.write_str("a whole number from 1 to 5 or a pair [low, high] of them")
            }
        }
    }
}

/// Displays a member with a wrong value, and what it must be.
#[derive(Clone, Copy)]
pub struct WrongMember<'v> {
    /// The name of the member.
    pub name: &'static str,
    /// Its value.
    pub value: &'v Value,
    /// What it must be.
    pub wanted: Wanted,
}

impl fmt::Display for WrongMember<'_> {
    fn fmt<W: fmt::Write>(&self, f: &mut fmt::Formatter<W>) -> fmt::Result {
        let WrongMember {
            name,
            value,
            wanted,
        } = *self;
        match (wanted, value.as_u64()) {
            (Wanted::Actor(actors, most), Some(number)) => {
                write!(
                    f,
                    "\"{name}\" is {number}; the job has {actors} 1 to {most}"
                )
            }
            (Wanted::Key | Wanted::Kind, _) if value.is_string() => {
                write!(f, "\"{name}\" must be {wanted}")
            }
            (
                Wanted::Slices
                | Wanted::Leases
                | Wanted::Tasks
                | Wanted::Loads
                | Wanted::Redundancy,
                _,
            ) if value.is_array() => { write!(f, "\"{name}\" must be {wanted}") }
            _ => write!(f, "\"{name}\" is {}; it must be {wanted}", Found(value)),
        }
    }
}
