//! Copies of replies and of written leases.

use crate::reply::Reply;
use crate::written_lease::WrittenLease;
use machines::Duplicate;
use std::alloc::AllocError;

impl Duplicate for WrittenLease {
    fn copy(&self) -> Result<WrittenLease, AllocError> {
        Ok(WrittenLease {
            kind: self.kind,
            generation: self.generation,
            ranges: self.ranges.copy()?,
            ends: self.ends,
        })
    }
}

impl Duplicate for Reply {
    fn copy(&self) -> Result<Reply, AllocError> {
        Ok(match self {
            Reply::Key(key) => Reply::Key(*key),
            Reply::Assigned { generation, slices } => Reply::Assigned {
                generation: *generation,
                slices: *slices,
            },
            Reply::Owners(owners) => Reply::Owners(owners.copy()?),
            Reply::Verdict(verdict) => Reply::Verdict(*verdict),
            Reply::Term(term) => Reply::Term(*term),
            Reply::Renewed(term) => Reply::Renewed(*term),
            Reply::Proposed(generation) => Reply::Proposed(*generation),
            Reply::Committed(generation) => Reply::Committed(*generation),
            Reply::Phase(phase) => Reply::Phase(*phase),
            Reply::Rows(rows) => Reply::Rows(rows.copy()?),
            Reply::Granted(grant) => Reply::Granted(grant.copy()?),
            Reply::Freed(rows) => Reply::Freed(*rows),
            Reply::Lost(rows) => Reply::Lost(*rows),
            Reply::Started(life) => Reply::Started(*life),
            Reply::Heard(number) => Reply::Heard(*number),
            Reply::Released { number, note } => Reply::Released {
                number: *number,
                note: *note,
            },
            Reply::Holding { number, handle } => Reply::Holding {
                number: *number,
                handle: *handle,
            },
            Reply::Continuous => Reply::Continuous,
            Reply::Broken => Reply::Broken,
            Reply::Learnt(generation) => Reply::Learnt(*generation),
            Reply::Found(found) => Reply::Found(found.copy()),
            Reply::Forgotten => Reply::Forgotten,
            Reply::Recorded(total) => Reply::Recorded(*total),
            Reply::Gathered { loads, totals } => Reply::Gathered {
                loads: loads.copy()?,
                totals: totals.copy()?,
            },
            Reply::Planned(plan) => Reply::Planned(plan.copy()?),
            Reply::Next(action) => Reply::Next(*action),
            Reply::TermDropped => Reply::TermDropped,
            Reply::Refused(why) => Reply::Refused(*why),
            Reply::NoMemory => Reply::NoMemory,
        })
    }
}
