//! Messages, where memory is refused once.

use crate::asking::{is_written, read};
use assignment::Assignment;
use clerk::Clerk;
use grants::{Grant, Kept, ReleaseNote, Row, SliceletCall};
use key_handle::KeyHandle;
use std::alloc::Global;
use std::test::Fail;
use wire::Wire;

// Whether each text is read as a value that is written so again.
fn round<T: Wire>(alloc: Global, texts: &[&str]) -> Result<bool, Fail> {
    for text in texts {
        let value: T = read(alloc, text)?;
        if !is_written(alloc, &value, text)? {
            return Ok(false);
        }
    }
    Ok(true)
}

const GRANTS: &[&str] = &[
    r#"{"ends":"95","generation":"3","kind":"bridge","life":1,"number":"7","ranges":[["0","5"],["9","9223372036854775808"]],"task":64,"until":"105"}"#,
];

const ASSIGNMENTS: &[&str] = &[
    r#"{"generation":"4","slices":[["0",[1,2]],["4611686018427387904",[3]]]}"#,
];

const RELEASE_NOTES: &[&str] = &[
    r#"{"kind":"guard","life":4294967295,"number":"18446744073709551615","task":2}"#,
];

const ROWS: &[&str] = &[
    r#"{"generation":"3","kind":"bridge","life":1,"number":"7","task":64,"until":"105"}"#,
];

const KEY_HANDLES: &[&str] = &[
    r#"{"life":5,"position":"12","slice_key":"9223372036854775807","task":1}"#,
];

const KEPT_VALUES: &[&str] = &[
    r#"{"committed":{"generation":"4","slices":[["0",[1,2]],["4611686018427387904",[3]]]},"deadline":"4611686018427388003","granted":"7","last":"4611686018427387903","pending":{"generation":"5","slices":[["0",[64]]]},"policy":{"bridge":100,"guard":4294967296,"job":1000,"numbers":4294967296,"redundancy":[1,2],"skew":10},"term":{"assigner":"9","number":"3","until":"4611686018427388903"}}"#,
    r#"{"committed":null,"deadline":"0","granted":"0","last":"0","pending":null,"policy":{"bridge":100,"guard":4294967296,"job":1000,"numbers":4294967296,"redundancy":[1,2],"skew":10},"term":null}"#,
];

const SLICELET_CALLS: &[&str] = &[
    r#"{"at":"3","do":"start","life":2}"#,
    r#"{"at":"6","do":"hear","grant":{"ends":"95","generation":"3","kind":"bridge","life":1,"number":"7","ranges":[["0","5"],["9","9223372036854775808"]],"task":64,"until":"105"}}"#,
    r#"{"at":"8","do":"release","kind":"guard"}"#,
    r#"{"do":"resume","life":2}"#,
];

const CLERKS: &[&str] = &[
    r#"{"generation":"4","slices":[["0",[1,2]],["4611686018427387904",[3]]]}"#,
    r#"null"#,
];

#[test]
fn messages_are_carried_without_memory(rt: HostRuntime) -> Result<(), Fail> {
    let alloc = rt.alloc();
    assert!(rt; round::<Grant>(alloc, GRANTS)?);
    assert!(rt; round::<Assignment>(alloc, ASSIGNMENTS)?);
    assert!(rt; round::<ReleaseNote>(alloc, RELEASE_NOTES)?);
    assert!(rt; round::<Row>(alloc, ROWS)?);
    assert!(rt; round::<KeyHandle>(alloc, KEY_HANDLES)?);
    assert!(rt; round::<Kept>(alloc, KEPT_VALUES)?);
    assert!(rt; round::<SliceletCall>(alloc, SLICELET_CALLS)?);
    assert!(rt; round::<Clerk>(alloc, CLERKS)?);
    Ok(())
}
