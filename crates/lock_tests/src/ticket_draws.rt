//! The limits of a ticket.

use std::alloc::Global;
use std::test::Fail;
use tickets::{MOST_DRAWS, MOST_PASSES, Ticket, TicketError};

fn is_beyond_limits(alloc: Global, passes: u64, quota: u64) -> bool {
    matches!(Ticket::new(alloc, passes, quota), Err(TicketError::Passes))
}

// How many passes there are, how many draws the first has left, and how many were drawn with none of
// them, if the ticket takes them back.
fn undrawn(alloc: Global, passes: u64, quota: u64) -> Result<(u64, u64, Option<u64>), Fail> {
    let (ticket, dealt) = Ticket::new(alloc, passes, quota)
        .ok()
        .ok_or("within the limits")?;
    let count = dealt.len() as u64;
    let left = dealt[0].left();
    Ok((count, left, ticket.close(dealt).ok()))
}

#[test]
fn takes_passes_and_draws_up_to_their_limits(rt: HostRuntime) -> Result<(), Fail> {
    for (passes, quota) in [(0, 1), (129, 1), (1, 0), (1, 4_294_967_297)] {
        assert!(rt; is_beyond_limits(rt.alloc(), passes, quota));
    }
    for (passes, quota) in [(1, 1), (128, 4_294_967_296)] {
        let (count, left, drawn) = undrawn(rt.alloc(), passes, quota)?;
        assert_eq!(rt; count, passes);
        assert_eq!(rt; left, quota);
        assert_eq!(rt; drawn, Some(0));
    }
    assert_eq!(rt; (MOST_PASSES, MOST_DRAWS), (128, 4_294_967_296));
    Ok(())
}
