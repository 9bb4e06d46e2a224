//! Plays the scripts in `data/`, and compares the results with stored files.
//!
//! NAME.json is a script, NAME.stdout the text that it must write, NAME.stderr the fault that it
//! must report, and NAME.status the exit status. `examples/scripts` has copies of ten of them.
#![tactic(auto)]

use anyhow::Result;
use service::{ProgramError, run_script};
use std::alloc::Global;
use std::fs;
use std::rt::Files;

const NAMES: [&str; 75] = [
    "owners",
    "hash-of-empty-and-hello",
    "hash-vectors",
    "draft-assignment-and-its-owners",
    "serve-inside-outside-and-before",
    "serve-at-the-deadline",
    "commit-held-until-guard-ends",
    "release-and-free-let-commit-pass",
    "released-grant-is-not-heard-again",
    "new-life-refuses-older-grant",
    "handle-lives-over-a-renewed-guard",
    "handle-breaks-when-guard-ended-before-renewal",
    "handle-breaks-when-key-left-and-came-back",
    "bridge-carries-a-key-over-a-change",
    "late-serve-is-denied-when-clocks-agree",
    "late-serve-with-a-slow-clock-is-untimely",
    "clerk-learns-and-forgets",
    "table-refusals-in-order",
    "grant-numbers-are-spent",
    "hear-and-release-refusals",
    "handles-of-strangers-and-older-lives",
    "rows-and-phase",
    "judge-names-the-first-ground",
    "next-action-of-an-assigner",
    "next-action-when-nothing-is-wanted-after-proposing",
    "loads-are-recorded-and-gathered",
    "share-total-reaches-its-limit",
    "gather-past-the-total-leaves-the-shares",
    "load-and-weight-limits",
    "plan-moves-the-best-gain-over-churn",
    "plan-without-churn-moves-nothing",
    "plan-merges-cold-and-halves-hot",
    "plan-halves-nothing-at-the-most",
    "plan-without-a-task-and-its-refusals",
    "plan-adds-and-moves-replicas",
    "load-moves-a-slice",
    "empty-input",
    "empty-array",
    "script-cut-off-in-its-third-step",
    "job-line-alone",
    "assignment-refusals",
    "judge-guard-then-bridge",
    "restarted-assigner-waits-for-its-old-term",
    "object-in-place-of-an-array",
    "number-in-place-of-a-job",
    "job-without-members",
    "job-of-redundancy-zero",
    "job-with-skew-as-long-as-the-guard",
    "four-thousand-ninety-seven-steps",
    "number-in-place-of-a-step",
    "unknown-step-after-a-good-one",
    "key-of-4097-bytes",
    "step-with-a-member-more",
    "serve-at-minus-one",
    "two-hundred-nested-arrays",
    "newer-grant-replaces-and-frees-both",
    "late-free-spares-a-newer-grant",
    "old-bridge-holds-up-the-next-commit",
    "slow-clock-finds-its-handle-continuous",
    "handle-is-broken-when-clocks-agree",
    "four-equal-owners-with-a-limit-of-five",
    "lose-before-any-grant",
    "lost-rows-hold-up-commit-by-grace",
    "rows-after-a-loss-hold-up-commit",
    "second-loss-moves-the-grace",
    "table-restarts-while-a-lease-is-out",
    "plan-adds-a-replica-for-churn",
    "plan-removes-a-replica",
    "hot-slice-gets-a-replica-and-loses-it",
    "redundancy-range-upside-down",
    "redundancy-range-above-five",
    "redundancy-of-zero-with-ranges",
    "redundancy-of-six",
    "five-owners-and-six",
    "four-owners-for-a-job-of-up-to-three",
];

/// The result of a script.
#[derive(Debug, Drop)]
struct Outcome {
    written: String,
    said: String,
    status: String,
}

impl Outcome {
    fn is(&self, other: &Outcome) -> bool {
        self.written.as_str() == other.written.as_str()
            && self.said.as_str() == other.said.as_str()
            && self.status.as_str() == other.status.as_str()
    }
}

// Returns the result in the files beside a script.
fn expected(rt: &(impl Files + AllocGlobal), name: &str) -> Result<Outcome> {
    let file = |ending: &str| format!(in rt.alloc(); "{name}.{ending}");
    Ok(Outcome {
        written: fs::read_to_string(rt, file("stdout")?)?,
        said: fs::read_to_string(rt, file("stderr")?)?,
        status: fs::read_to_string(rt, file("status")?)?,
    })
}

// Plays a script.
fn played(alloc: Global, script: &[u8]) -> Result<Outcome> {
    let mut reader = script;
    let mut written = Vec::new(alloc);
    let (said, status) = match run_script(alloc, &mut reader, &mut written) {
        Ok(()) => (String::new(alloc), 0),
        Err(fault) => {
            let status = fault.status();
            (
                format!(in alloc; "{}\n", ProgramError::Fault(fault))?,
                status,
            )
        }
    };
    Ok(Outcome {
        written: String::from_utf8(written)?,
        said,
        status: format!(in alloc; "{status}\n")?,
    })
}

fn main(rt: HostRuntime) -> Result<()> {
    for name in NAMES {
        let script = fs::read(&rt, format!(in rt.alloc(); "{name}.json")?)?;
        let given = played(rt.alloc(), script.as_slice())?;
        let wanted = expected(&rt, name)?;
        if given.is(&wanted) {
            println!(rt; "{name}: as expected")?;
        } else {
            println!(rt; "{name}: gave {given:?} in place of {wanted:?}")?;
        }
    }
    Ok(())
}
