//! Names of jobs.

ghost use Rattle.std.specs.Prelude.{◌≡◌, List, ℕ, [], ◌≤◌, ◌↔◌, IsSome, IfSome, length, nat_eq};
ghost use Rattle.std.specs.Cmp.{partial_equiv_from_equiv};
ghost use Rattle.std.specs.Cmp.Lexicographic.{pointwise, nat_list_eq_equiv};

use arrayvec::ArrayString;
use machines::Duplicate;
use std::alloc::AllocError;
use std::marker::Model;

/// The greatest number of bytes in the name of a job.
pub const MOST_NAME_BYTES: usize = 64;

/// The name of a job, at most [`MOST_NAME_BYTES`] bytes of UTF-8.
///
/// A message is read only as one of its job, so jobs that share a transport have different names.
/// The empty name is that of a job whose messages may be of version 1, which names no job.
#[derive(Debug, Drop)]
pub struct JobName {
    text: ArrayString<64>,
}

impl Model for JobName {
    ghost Value = { List ℕ };

    ghost view = { λ name. name.text.bytes };
}

/// Names are equal if their texts are.
impl PartialEq for JobName {
    ghost eq = { pointwise nat_eq };

    ghost laws = { partial_equiv_from_equiv nat_list_eq_equiv };

    fn eq(&self, other: &Self) -> bool {
        self.text == other.text
    }
}

impl Eq for JobName {
    ghost laws = { nat_list_eq_equiv };
}

/// The empty name.
impl Default for JobName {
    ghost is_default = { λ name. name ≡ [] };

    fn default() -> Self {
        JobName {
            text: ArrayString::new(),
        }
    }
}

impl Duplicate for JobName {
    fn copy(&self) -> Result<JobName, AllocError> {
        Ok(JobName { text: self.text })
    }
}

impl JobName {
    /// Returns the name with this text, or `None` if it has more than [`MOST_NAME_BYTES`] bytes.
    pub fn new(text: &str) -> Option<Self>
        ensures valid { IsSome result ↔ (length text.now ≤ MOST_NAME_BYTES) }
        ensures value { IfSome result (λ name. name ≡ text.now) }
    {
        match ArrayString::from(text) {
            Ok(text) => Some(JobName { text }),
            Err(_too_long) => None,
        }
    }

    /// Returns the text of the name.
    pub fn as_str(&self) -> &str
        ensures text { result.now ≡ self.now }
        ensures short { length result.now ≤ MOST_NAME_BYTES }
    {
        self.text.as_str()
    }
}
