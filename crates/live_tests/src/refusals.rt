//! Calls of shared objects that record nothing.

use crate::objects::{open_table, open_ticket};
use shared_objects::{CallError, Draws, When};
use std::test::Fail;

#[test]
fn draws_nothing_where_the_history_is_full(rt: HostRuntime) -> Result<(), Fail> {
    let (table, mut pass) = open_table(rt.alloc(), 1)?;
    let (ticket, ticket_pass) = open_ticket(rt.alloc(), 2)?;
    let mut draws = Draws::new(&ticket, ticket_pass);
    let first = table.take(&rt, &mut pass, &mut draws, 1, When::At(0));
    let second = table.take(&rt, &mut pass, &mut draws, 1, When::At(1000));
    assert!(rt; first.is_ok());
    assert!(rt; matches!(second, Err(CallError::HistoryFull)));
    assert_eq!(rt; draws.left(), 1);
    Ok(())
}

#[test]
fn calls_nothing_once_its_ticket_pass_is_spent(rt: HostRuntime) -> Result<(), Fail> {
    let (table, mut pass) = open_table(rt.alloc(), 10)?;
    let (ticket, ticket_pass) = open_ticket(rt.alloc(), 1)?;
    let mut draws = Draws::new(&ticket, ticket_pass);
    let first = table.take(&rt, &mut pass, &mut draws, 1, When::At(0));
    let second = table.take(&rt, &mut pass, &mut draws, 1, When::At(1000));
    assert!(rt; first.is_ok());
    assert!(rt; matches!(second, Err(CallError::Spent)));
    Ok(())
}
