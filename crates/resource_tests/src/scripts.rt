//! Scripts, where memory is refused once.

use crate::asking::again;
use faults::ScriptError;
use machines::{Duplicate, Listed};
use program_io::{Fault, value_of};
use replies::Line;
use service::{Script, lone_step, output_of, replies_of, run_script, script_of};
use std::alloc::{AllocError, Global};
use std::io::Read;
use std::test::Fail;

// Terms of 1000 ticks for the job lease and of 100 for guards and bridges, and a skew of 10.
const JOB: &str =
    r#"{"job":{"redundancy":1,"skew":10,"guard":100,"bridge":100,"job":1000,"numbers":1000,"assigners":1,"tasks":2,"clerks":1}}"#;

// Steps, each with its line. The slice key of "hello" lies in the first quarter of the key space,
// that of "abc" in the upper half.
const STEPS: &[(&str, &str)] = &[
    (r#"{"do":"hash","key":"hello"}"#, "key 167926dd2fd85187"),
    (
        r#"{"do":"judge","up":true,"last":6,"leases":[{"kind":"guard","generation":1,"ranges":[[0,4611686018427387904]],"ends":95}],"key":"hello","at":94}"#,
        "served guard 1",
    ),
    (
        r#"{"do":"assign","generation":1,"slices":[[0,[1]],[2305843009213693952,[1]],[4611686018427387904,[2]]]}"#,
        "assigned 1 slices 3",
    ),
    (r#"{"do":"owners","key":"abc"}"#, "owners 2"),
    (
        r#"{"do":"load","task":1,"key":"hello","weight":6}"#,
        "recorded 6",
    ),
    (r#"{"do":"gather"}"#, "loads 6 0 0 totals 6 0"),
    (
        r#"{"do":"plan","tasks":[1,2],"loads":[6,4,1],"churn":9223372036854775808,"cold":0,"hot":100,"most":1024}"#,
        "plan [0:1 2305843009213693952:2 4611686018427387904:2] moves [2305843009213693952:1>2 gain 4 churn 2305843009213693952]",
    ),
    (r#"{"do":"take","assigner":1,"at":0}"#, "term 1 until 1000"),
    (
        r#"{"do":"propose","assigner":1,"generation":1,"slices":[[0,[1]],[4611686018427387904,[2]]],"at":1}"#,
        "proposed 1",
    ),
    (r#"{"do":"commit","assigner":1,"at":2}"#, "committed 1"),
    (r#"{"do":"start","task":1,"life":1,"at":3}"#, "started 1"),
    (
        r#"{"do":"grant","task":1,"life":1,"at":5}"#,
        "grant 1 guard 1 until 105 95",
    ),
    (r#"{"do":"hear","task":1,"number":1,"at":6}"#, "heard 1"),
    (r#"{"do":"hold","task":1,"key":"hello","at":7}"#, "handle 1"),
    (r#"{"do":"rows"}"#, "rows [1:1:1:guard:1:105]"),
    (
        r#"{"do":"propose","assigner":1,"generation":2,"slices":[[0,[1]]],"at":20}"#,
        "proposed 2",
    ),
    (r#"{"do":"phase"}"#, "phase bridging 1 2"),
    (
        r#"{"do":"grant","task":1,"life":1,"at":24}"#,
        "grant 2 bridge 2 until 124 114",
    ),
    (r#"{"do":"hear","task":1,"number":2,"at":25}"#, "heard 2"),
    (
        r#"{"do":"release","task":1,"kind":"guard","at":26}"#,
        "released note 1 number 1",
    ),
    (
        r#"{"do":"serve","task":1,"key":"hello","at":27}"#,
        "served bridge 2",
    ),
    (r#"{"do":"free","note":1,"at":28}"#, "freed 1"),
    (r#"{"do":"commit","assigner":1,"at":29}"#, "committed 2"),
    (
        r#"{"do":"check","task":1,"handle":1,"at":32}"#,
        "continuous",
    ),
    (r#"{"do":"learn","clerk":1,"generation":2}"#, "learnt 2"),
    (
        r#"{"do":"look","clerk":1,"key":"abc"}"#,
        "found generation 2 owners 1",
    ),
];

/// Returns a script.
pub fn script(alloc: Global) -> Result<String, AllocError> {
    let mut text = String::new(alloc);
    write!(text, "[{JOB}")?;
    for (step, _) in STEPS {
        write!(text, ",{step}")?;
    }
    write!(text, "]")?;
    Ok(text)
}

/// Returns what has to be written for the script.
pub fn lines(alloc: Global) -> Result<String, AllocError> {
    let mut text = String::new(alloc);
    for (_, line) in STEPS {
        writeln!(text, "{line}")?;
    }
    writeln!(text, "timely yes")?;
    Ok(text)
}

/// How a run of a script ends that does not run out of memory, and what it writes.
pub type Outcome = (Result<(), Fault<ScriptError>>, Vec<u8>);

/// Runs the script that a reader gives. Out of memory is an error if nothing was written.
pub fn outcome<R: Read>(alloc: Global, reader: &mut R) -> Result<Outcome, AllocError> {
    let mut written = Vec::with_capacity(alloc, 4096)?;
    match run_script(alloc, reader, &mut written) {
        Err(Fault::Memory) if written.is_empty() => Err(AllocError),
        answer => Ok((answer, written)),
    }
}

#[test]
fn scripts_are_run_without_memory(rt: HostRuntime) -> Result<(), Fail> {
    let alloc = rt.alloc();
    let text = again(|| script(alloc))?;
    let wanted = again(|| lines(alloc))?;
    let (answer, written) = again(|| outcome(alloc, &mut text.as_bytes()))?;
    assert_eq!(rt; answer, Ok(()));
    assert_eq!(rt; written.as_slice(), wanted.as_bytes());
    Ok(())
}

#[test]
fn scripts_are_read_without_memory(rt: HostRuntime) -> Result<(), Fail> {
    let alloc = rt.alloc();
    let text = again(|| script(alloc))?;
    let wanted = again(|| lines(alloc))?;
    let value = again(|| value_of(alloc, text.as_bytes()))
        .ok()
        .ok_or("it is JSON")?;
    let whole = again(|| script_of(alloc, &value))?;
    assert_eq!(rt; again(|| output_of(alloc, &whole))?, wanted);
    let job = whole.job;
    let mut steps = again(|| Vec::with_capacity(alloc, STEPS.len()))?;
    for (step, _) in STEPS {
        let value = again(|| value_of(alloc, step.as_bytes()));
        let value = value.ok().ok_or("it is JSON")?;
        let step = again(|| lone_step(alloc, job, &value));
        steps.push(step.ok().ok_or("it is a step")?)?;
    }
    let steps = Listed::from_vec(steps);
    let joined = Script { job, steps };
    assert_eq!(rt; again(|| output_of(alloc, &joined))?, wanted);
    Ok(())
}

#[test]
fn scripts_and_replies_are_copied_without_memory(rt: HostRuntime) -> Result<(), Fail> {
    let alloc = rt.alloc();
    let text = again(|| script(alloc))?;
    let wanted = again(|| lines(alloc))?;
    let value = again(|| value_of(alloc, text.as_bytes()))
        .ok()
        .ok_or("it is JSON")?;
    let whole = again(|| script_of(alloc, &value))?;
    let copied = again(|| whole.copy())?;
    assert_eq!(rt; again(|| output_of(alloc, &copied))?, wanted);
    let replies = again(|| replies_of(alloc, copied.job, copied.steps.as_slice()))?;
    assert_eq!(rt; replies.len(), STEPS.len());
    for (reply, (_, line)) in replies.iter().zip(STEPS) {
        let copied = again(|| reply.copy())?;
        let told = again(|| format!(in alloc; "{}", Line(&copied)))?;
        assert_eq!(rt; told.as_str(), *line);
    }
    Ok(())
}
