//! One ticket drawn by two threads, each with a pass of its own.

ghost use Rattle.std.specs.Prelude.{IfOk};
ghost use Rattle.tickets.specs.Tickets.{DrawsFrom};

use std::alloc::{AllocError, Global};
use std::test::Fail;
use std::thread::{Threads, join};
use tickets::{Ticket, TicketPass};

// A pass that is spent, with the numbers that it drew.
type Drawn = (TicketPass, Vec<u64>);

fn draw_all(alloc: Global, ticket: &Ticket, mut pass: TicketPass) -> Result<Drawn, AllocError>
    requires { DrawsFrom ticket.now pass }
    ensures { IfOk result (λ drawn. DrawsFrom ticket.now drawn.0) }
{
    let mut numbers = Vec::new(alloc);
    for _ in 0..pass.left() {
        if let Ok(number) = ticket.draw(&mut pass) {
            numbers.push(number)?;
        }
    }
    Ok((pass, numbers))
}

// The same by two threads.
fn draw_in_two_threads<R: Threads + Sync>(
    rt: &R,
    alloc: Global,
    ticket: &Ticket,
    first: TicketPass,
    second: TicketPass,
) -> (Result<Drawn, AllocError>, Result<Drawn, AllocError>)
    requires first { DrawsFrom ticket.now first }
    requires second { DrawsFrom ticket.now second }
    ensures first { IfOk result.0 (λ drawn. DrawsFrom ticket.now drawn.0) }
    ensures second { IfOk result.1 (λ drawn. DrawsFrom ticket.now drawn.0) }
{
    join(
        rt,
        || draw_all(alloc, ticket, first),
        || draw_all(alloc, ticket, second),
    )
}

// Whether these are the numbers from 0 on, each once, in some order.
fn are_first_numbers(mut numbers: Vec<u64>) -> Result<bool, AllocError> {
    numbers.sort()?;
    Ok(
        numbers
            .iter()
            .enumerate()
            .all(|(place, number)| place as u64 == *number),
    )
}

// A ticket of two passes with this many draws each, and its passes.
fn ticket_for_two(alloc: Global, quota: u64) -> Result<(Ticket, TicketPass, TicketPass), Fail>
    ensures first { IfOk result (λ dealt. DrawsFrom dealt.0 dealt.1) }
    ensures second { IfOk result (λ dealt. DrawsFrom dealt.0 dealt.2) }
{
    let (ticket, mut passes) = Ticket::new(alloc, 2, quota).ok().ok_or("two passes")?;
    let second = passes.pop().ok_or("the second pass")?;
    let first = passes.pop().ok_or("the first pass")?;
    Ok((ticket, first, second))
}

// How many numbers were drawn, if the ticket takes both passes back.
fn drawn_in_all(
    alloc: Global,
    ticket: Ticket,
    first: TicketPass,
    second: TicketPass,
) -> Result<Option<u64>, AllocError>
    requires first { DrawsFrom ticket first }
    requires second { DrawsFrom ticket second }
{
    let passes = Vec::from_array(alloc, [first, second])?;
    Ok(ticket.close(passes).ok())
}

#[test]
fn two_threads_draw_each_number_once(rt: HostRuntime) -> Result<(), Fail> {
    let (ticket, first, second) = ticket_for_two(rt.alloc(), 1000)?;
    let (first, second) = draw_in_two_threads(&rt, rt.alloc(), &ticket, first, second);
    let ((first, mut numbers), (second, others)) = (first?, second?);
    numbers.extend_from_slice(others.as_slice())?;
    assert_eq!(rt; numbers.len(), 2000);
    assert!(rt; are_first_numbers(numbers)?);
    assert_eq!(rt;
        drawn_in_all(rt.alloc(), ticket, first, second)?,
        Some(2000)
    );
    Ok(())
}
