//! Tables, slicelets and clerks: each call of a story is answered, at the second time where memory
//! is refused.

use crate::asking::{again, changed, is_written};
use crate::calls::{Named, Told, read_call};
use assignment::TaskId;
use clerk::Clerk;
use grants::{Policy, TableReply};
use lease_rule::Kind;
use lease_table::LeaseTable;
use machines::{Duplicate, Event, Machine};
use slicelet::Slicelet;
use std::alloc::{AllocError, Global};
use std::test::Fail;

/// A machine whose state a test can compare.
trait Shown: Machine {
    /// Returns a text of what a caller can see of the state.
    fn shown(&self, alloc: Global) -> Result<String, AllocError>;
}

impl Shown for LeaseTable {
    fn shown(&self, alloc: Global) -> Result<String, AllocError> {
        let snapshot = self.snapshot()?;
        format!(in alloc; "{snapshot:?}")
    }
}

impl Shown for Slicelet {
    fn shown(&self, alloc: Global) -> Result<String, AllocError> {
        let keys = self.permitted(self.last_reading())?;
        format!(in alloc;
            "{} {} {} {:?} {:?} {:?}",
            self.life(),
            self.last_reading(),
            self.calls_left(),
            self.held(Kind::Guard),
            self.held(Kind::Bridge),
            keys.boundaries()
        )
    }
}

impl Shown for Clerk {
    fn shown(&self, alloc: Global) -> Result<String, AllocError> {
        format!(in alloc; "{:?}", self.kept())
    }
}

// The reply of a machine to an event.
fn applied<M: Shown>(alloc: Global, machine: &mut M, event: &M::Event) -> Result<M::Reply, Fail> {
    changed(machine, |m| m.shown(alloc), |m| m.apply(event))
}

// Makes the calls of a story, each by a copy of its event. Returns the first call whose reply is not
// the one beside it.
fn first_wrong<'s, M, C>(
    alloc: Global,
    machine: &mut M,
    story: &[(&'s str, &'s str)],
) -> Result<Option<&'s str>, Fail>
where
    M: Shown + Machine<Event = Event<C>>,
    M::Reply: Told,
    C: Named + Duplicate,
{
    for (call, wanted) in story {
        let call_read: C = read_call(alloc, call)?;
        let event = Event {
            ticket: 1,
            call: call_read,
        };
        let copied = again(|| M::copy_event(&event))?;
        let reply = applied(alloc, machine, &copied)?;
        if again(|| reply.told(alloc))?.as_str() != *wanted {
            return Ok(Some(*call));
        }
    }
    Ok(None)
}

// A job with terms of 1000 ticks for the job lease and of 100 for guards and bridges, and a skew of
// 10. Task 1 asks for a lease before and after generation 2 is proposed.
const TABLE_STORY: [(&str, &str); 10] = [
    (
        r#"{"assigner":"1","at":"0","do":"take"}"#,
        "term 1 of 1 until 1000",
    ),
    (
        r#"{"at":"1","do":"propose","generation":"1","slices":[["0",[1]],["4611686018427387904",[2]]],"term":"1"}"#,
        "proposed",
    ),
    (r#"{"at":"2","do":"commit","term":"1"}"#, "committed 1"),
    (
        r#"{"at":"5","do":"grant","life":1,"task":1}"#,
        r#"{"ends":"95","generation":"1","kind":"guard","life":1,"number":"1","ranges":[["0","4611686018427387904"]],"task":1,"until":"105"}"#,
    ),
    (
        r#"{"at":"6","do":"renew","term":"1"}"#,
        "term 1 of 1 until 1006",
    ),
    (
        r#"{"at":"20","do":"propose","generation":"2","slices":[["0",[1]],["1024",[2]]],"term":"1"}"#,
        "proposed",
    ),
    (
        r#"{"at":"24","do":"grant","life":1,"task":1}"#,
        r#"{"ends":"114","generation":"2","kind":"bridge","life":1,"number":"2","ranges":[["0","1024"]],"task":1,"until":"124"}"#,
    ),
    (
        r#"{"at":"28","do":"free","note":{"kind":"guard","life":1,"number":"1","task":1}}"#,
        "freed 1",
    ),
    (r#"{"at":"29","do":"commit","term":"1"}"#, "committed 2"),
    (r#"{"do":"lose"}"#, "lost 1"),
];

// What the table keeps and lists after the first seven calls.
const KEPT: &str =
    r#"{"committed":{"generation":"1","slices":[["0",[1]],["4611686018427387904",[2]]]},"deadline":"124","granted":"2","last":"24","pending":{"generation":"2","slices":[["0",[1]],["1024",[2]]]},"policy":{"bridge":100,"guard":100,"job":1000,"numbers":50,"redundancy":[1,1],"skew":10},"term":{"assigner":"1","number":"1","until":"1006"}}"#;

const ROWS: [&str; 2] = [
    r#"{"generation":"1","kind":"guard","life":1,"number":"1","task":1,"until":"105"}"#,
    r#"{"generation":"2","kind":"bridge","life":1,"number":"2","task":1,"until":"124"}"#,
];

// The grant that task 2 would get at 24: of its keys in both generations.
const NEXT_GRANT: &str =
    r#"{"ends":"114","generation":"2","kind":"bridge","life":1,"number":"3","ranges":[["4611686018427387904","9223372036854775808"]],"task":2,"until":"124"}"#;

#[test]
fn table_answers_without_memory(rt: HostRuntime) -> Result<(), Fail> {
    let alloc = rt.alloc();
    let policy = Policy::new(1, 1, 10, 100, 100, 1000, 50).ok_or("within the limits")?;
    let mut table = LeaseTable::new(alloc, policy);
    assert_eq!(rt; first_wrong(alloc, &mut table, &TABLE_STORY[..7])?, None);
    let task = TaskId::new(2).ok_or("a number from 1 to 64")?;
    let grant = changed(
        &mut table,
        |t| t.shown(alloc),
        |t| t.next_grant(task, 1, 24),
    )?;
    let reply = TableReply::Granted(again(|| grant.copy())?);
    let reply = again(|| reply.copy())?;
    assert_eq!(rt; again(|| reply.told(alloc))?.as_str(), NEXT_GRANT);
    let kept = again(|| table.kept())?;
    assert!(rt; is_written(alloc, &again(|| kept.copy())?, KEPT)?);
    let rows = again(|| table.rows())?;
    assert_eq!(rt; rows.len(), ROWS.len());
    for (row, wanted) in rows.iter().zip(ROWS) {
        assert!(rt; is_written(alloc, row, wanted)?);
    }
    let snapshot = again(|| table.snapshot())?;
    let resumed = again(|| LeaseTable::resume(alloc, policy, snapshot.copy()?))?;
    for twin in [resumed, again(|| table.copy())?] {
        assert_eq!(rt; again(|| twin.shown(alloc))?, again(|| table.shown(alloc))?);
    }
    assert_eq!(rt; first_wrong(alloc, &mut table, &TABLE_STORY[7..])?, None);
    Ok(())
}

const SLICELET_STORY: [(&str, &str); 5] = [
    (r#"{"at":"3","do":"start","life":1}"#, "started"),
    (
        r#"{"at":"6","do":"hear","grant":{"ends":"95","generation":"1","kind":"guard","life":1,"number":"1","ranges":[["0","5"],["9","20"]],"task":1,"until":"105"}}"#,
        "heard",
    ),
    (
        r#"{"at":"25","do":"hear","grant":{"ends":"114","generation":"2","kind":"bridge","life":1,"number":"2","ranges":[["3","11"]],"task":1,"until":"124"}}"#,
        "heard",
    ),
    (
        r#"{"at":"26","do":"release","kind":"guard"}"#,
        r#"{"kind":"guard","life":1,"number":"1","task":1}"#,
    ),
    (
        r#"{"do":"resume","life":1}"#,
        r#"{"kind":"guard","life":1,"number":"4294967296","task":1} {"kind":"bridge","life":1,"number":"4294967296","task":1}"#,
    ),
];

#[test]
fn slicelet_answers_without_memory(rt: HostRuntime) -> Result<(), Fail> {
    let alloc = rt.alloc();
    let task = TaskId::new(1).ok_or("a number from 1 to 64")?;
    let mut slicelet = Slicelet::new(alloc, task);
    assert_eq!(rt;
        first_wrong(alloc, &mut slicelet, &SLICELET_STORY[..3])?,
        None
    );
    let copied = again(|| slicelet.copy())?;
    let keys = again(|| copied.permitted(94))?;
    assert_eq!(rt; keys.boundaries(), [0, 20].as_slice());
    let keys = again(|| copied.permitted(95))?;
    assert_eq!(rt; keys.boundaries(), [3, 11].as_slice());
    assert_eq!(rt;
        first_wrong(alloc, &mut slicelet, &SLICELET_STORY[3..])?,
        None
    );
    Ok(())
}

const CLERK_STORY: [(&str, &str); 3] = [
    (
        r#"{"do":"learn","generation":"1","slices":[["0",[1]],["4611686018427387904",[2]]]}"#,
        "learnt",
    ),
    (
        r#"{"do":"learn","generation":"4","slices":[["0",[1,2]]]}"#,
        "learnt",
    ),
    (r#"{"do":"forget"}"#, "forgotten"),
];

#[test]
fn clerk_answers_without_memory(rt: HostRuntime) -> Result<(), Fail> {
    let alloc = rt.alloc();
    let mut clerk = Clerk::new();
    assert_eq!(rt; first_wrong(alloc, &mut clerk, &CLERK_STORY[..2])?, None);
    let copied = again(|| clerk.copy())?;
    let kept = r#"{"generation":"4","slices":[["0",[1,2]]]}"#;
    assert!(rt; is_written(alloc, &copied, kept)?);
    assert_eq!(rt; first_wrong(alloc, &mut clerk, &CLERK_STORY[2..])?, None);
    assert!(rt; is_written(alloc, &clerk, "null")?);
    Ok(())
}
