//! Copies of lists of values.

ghost use Rattle.std.specs.Prelude.{◌≡◌, IfOk};

use assignment::Assignment;
use clerk::Clerk;
use grants::Grant;
use std::alloc::{AllocError, Global};

/// Returns copies of these clerks. The only error is out of memory.
pub fn clerk_copies(alloc: Global, clerks: &[Clerk]) -> Result<Vec<Clerk>, AllocError>
    ensures { IfOk result (λ copies. copies.items ≡ clerks.now) }
{
    let mut copies = Vec::new(alloc);
    for clerk in clerks {
        copies.push(clerk.copy()?)?;
    }
    Ok(copies)
}

/// Returns copies of these grants. The only error is out of memory.
pub fn grant_copies(alloc: Global, grants: &[Grant]) -> Result<Vec<Grant>, AllocError>
    ensures { IfOk result (λ copies. copies.items ≡ grants.now) }
{
    let mut copies = Vec::new(alloc);
    for grant in grants {
        copies.push(grant.copy()?)?;
    }
    Ok(copies)
}

/// Returns copies of these assignments. The only error is out of memory.
pub fn assignment_copies(
    alloc: Global,
    assignments: &[Assignment],
) -> Result<Vec<Assignment>, AllocError>
    ensures { IfOk result (λ copies. copies.items ≡ assignments.now) }
{
    let mut copies = Vec::new(alloc);
    for assignment in assignments {
        copies.push(assignment.copy()?)?;
    }
    Ok(copies)
}
