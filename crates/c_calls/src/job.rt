//! Names of jobs, as the caller gives them.

ghost use Rattle.std.specs.Prelude.{◌≡◌};
ghost use Rattle.c_calls.specs.Jobs.{job_of};

use std::str;
use wire::JobName;

/// Returns the name of a job with these bytes, or `None` if they are too many or not UTF-8.
pub fn job_of(bytes: &[u8]) -> Option<JobName>
    ensures { result ≡ job_of bytes.now }
{
    match str::from_utf8(bytes) {
        Ok(text) => JobName::new(text),
        Err(_) => None,
    }
}
