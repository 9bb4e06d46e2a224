//! The members of each step, in the order in which they are checked.

use faults::Members;

/// The members of each step, by its name.
const STEPS: &[(&str, &[&str])] = &[
    ("hash", &["key"]),
    ("assign", &["generation", "slices"]),
    ("owners", &["key"]),
    ("judge", &["up", "last", "leases", "key", "at"]),
    ("take", &["assigner", "at"]),
    ("renew", &["assigner", "at"]),
    ("propose", &["assigner", "generation", "slices", "at"]),
    ("commit", &["assigner", "at"]),
    ("phase", &[]),
    ("rows", &[]),
    ("grant", &["task", "life", "at"]),
    ("free", &["note", "at"]),
    ("restart", &["assigner"]),
    ("lose", &[]),
    ("start", &["task", "life", "at"]),
    ("hear", &["task", "number", "at"]),
    ("release", &["task", "kind", "at"]),
    ("serve", &["task", "key", "at"]),
    ("hold", &["task", "key", "at"]),
    ("check", &["task", "handle", "at"]),
    ("learn", &["clerk", "generation"]),
    ("look", &["clerk", "key"]),
    ("forget", &["clerk"]),
    ("load", &["task", "key", "weight"]),
    ("gather", &[]),
    ("plan", &["tasks", "loads", "churn", "cold", "hot", "most"]),
    ("next", &["assigner", "at", "wanted"]),
];

/// Returns the members of the step with this name, if there is such a step.
pub fn members_of(step: &str) -> Option<Members> {
    for (kind, names) in STEPS {
        if *kind == step {
            return Some(Members { kind, names });
        }
    }
    None
}
