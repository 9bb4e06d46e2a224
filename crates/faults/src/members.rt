//! The members of an object: which one it lacks, and which one it should not have.

use serde_json::{Map, Value};
use std::fmt;

/// The members that a kind of object has, in the order in which they are checked.
#[derive(Clone, Copy)]
pub struct Members {
    /// What the object is.
    pub kind: &'static str,
    /// The names of its members, without the `do` of a step.
    pub names: &'static [&'static str],
}

impl Members {
    /// Whether there is a member with this name.
    pub fn has(self, name: &str) -> bool {
        for member in self.names {
            if *member == name {
                return true;
            }
        }
        false
    }
}

impl fmt::Display for Members {
    fn fmt<W: fmt::Write>(&self, f: &mut fmt::Formatter<W>) -> fmt::Result {
        let [first, others @ ..] = self.names else {
            return f.write_str("the only member is \"do\"");
        };
        write!(f, "the members are {first}")?;
        for member in others {
            write!(f, ", {member}")?;
        }
        Ok(())
    }
}

/// Returns the first member of an object that is neither in `members` nor named `other`.
pub fn unknown_member<'v>(
    object: &'v Map<String, Value>,
    members: Members,
    other: &str,
) -> Option<&'v str> {
    for name in object.keys() {
        let name = name.as_str();
        if name != other && !members.has(name) {
            return Some(name);
        }
    }
    None
}

/// Returns the first of these members that an object lacks.
pub fn missing_member(value: &Value, members: Members) -> Option<&'static str> {
    for name in members.names {
        if value.get(*name).is_none() {
            return Some(*name);
        }
    }
    None
}
