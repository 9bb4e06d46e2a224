//! The words for why a step is refused.

ghost use Rattle.std.specs.Prelude.{◌≡◌, Some};
ghost use Rattle.replies.specs.Lines.{slices_words, ranges_words, table_words, slicelet_words, load_words, plan_words, action_word, refusal_words};

use crate::reply::Refusal;
use assigner::Action;
use assignment::AssignmentError;
use clerk::ClerkError;
use grants::{SliceletError, TableError};
use load_ledger::LoadError;
use slice_ranges::RangesError;
use std::fmt;
use weighted_move::PlanError;
use wire::kind_word;

// Returns the words for slices that make no assignment.
fn slices_words(error: AssignmentError) -> &'static str
    ensures { result.now ≡ slices_words error }
{
    match error {
        AssignmentError::NoSlices => "no-slices",
        AssignmentError::FirstNotZero => "first-not-zero",
        AssignmentError::NotRising => "not-rising",
        AssignmentError::PastEnd => "past-end",
        AssignmentError::NoOwner => "no-owner",
        AssignmentError::TooManyOwners => "too-many-owners",
        AssignmentError::OwnerTwice => "owner-twice",
        AssignmentError::BadTask => "bad-task",
        AssignmentError::TooManySlices => "too-many-slices",
    }
}

// Returns the words for pairs that make no set.
fn ranges_words(error: RangesError) -> &'static str
    ensures { result.now ≡ ranges_words error }
{
    match error {
        RangesError::Unsorted => "unsorted",
        RangesError::Empty => "empty",
        RangesError::PastEnd => "past-end",
    }
}

/// Returns the word for what an assigner does next.
pub fn action_word(action: Action) -> &'static str
    ensures { result.now ≡ action_word action }
{
    match action {
        Action::Take => "take",
        Action::Renew => "renew",
        Action::Commit => "commit",
        Action::Propose => "propose",
        Action::Rest => "rest",
    }
}

// Returns the words for why work is not counted.
fn load_words(error: LoadError) -> &'static str
    ensures { result.now ≡ load_words error }
{
    match error {
        LoadError::WeightRange => "weight-range",
        LoadError::TotalRange => "total-range",
    }
}

// Returns the words for why there is no plan.
fn plan_words(error: PlanError) -> &'static str
    ensures { result.now ≡ plan_words error }
{
    match error {
        PlanError::NoTasks => "no-tasks",
        PlanError::LoadsLength => "loads-length",
        PlanError::LoadRange => "load-range",
    }
}

/// The words for why the table refuses.
#[derive(Clone, Copy)]
struct TableWords(TableError);

impl fmt::Display for TableWords {
    ghost output = { λ w. Some (table_words w.0) };

    fn fmt<W: fmt::Write>(&self, f: &mut fmt::Formatter<W>) -> fmt::Result {
        match self.0 {
            TableError::ReadingRange => f.write_str("reading-range"),
            TableError::ClockBack => f.write_str("clock-back"),
            TableError::JobHeld { until } => write!(f, "job-held {until}"),
            TableError::NotHolder { term } => write!(f, "not-holder {term}"),
            TableError::StaleBase { generation } => write!(f, "stale-base {generation}"),
            TableError::Pending => f.write_str("pending"),
            TableError::NothingPending => f.write_str("nothing-pending"),
            TableError::TooManyOwnersForJob => f.write_str("too-many-owners-for-job"),
            TableError::Grace { until } => write!(f, "grace {until}"),
            TableError::Held { task, kind, number } => {
                write!(f, "held {task} {} {number}", kind_word(kind))
            }
            TableError::NoRow => f.write_str("no-row"),
            TableError::NoAssignment => f.write_str("no-assignment"),
            TableError::NumbersSpent => f.write_str("numbers-spent"),
        }
    }
}

/// The words for why a slicelet refuses.
#[derive(Clone, Copy)]
struct SliceletWords(SliceletError);

impl fmt::Display for SliceletWords {
    ghost output = { λ w. Some (slicelet_words w.0) };

    fn fmt<W: fmt::Write>(&self, f: &mut fmt::Formatter<W>) -> fmt::Result {
        match self.0 {
            SliceletError::NotStarted => f.write_str("not-started"),
            SliceletError::OldLife => f.write_str("old-life"),
            SliceletError::ClockBack => f.write_str("clock-back"),
            SliceletError::OtherTask => f.write_str("other-task"),
            SliceletError::OtherLife => f.write_str("other-life"),
            SliceletError::Old { heard } => write!(f, "old {heard}"),
            SliceletError::TooLate => f.write_str("too-late"),
            SliceletError::NothingHeld => f.write_str("nothing-held"),
            SliceletError::HistoryFull => f.write_str("history-full"),
        }
    }
}

/// The words for why a step is refused. Every actor of a script's step is one of the job.
#[derive(Clone, Copy)]
pub struct RefusalWords(pub Refusal);

impl fmt::Display for RefusalWords {
    ghost output = { λ w. Some (refusal_words w.0) };

    fn fmt<W: fmt::Write>(&self, f: &mut fmt::Formatter<W>) -> fmt::Result {
        match self.0 {
            Refusal::NoActor => f.write_str("no-actor"),
            Refusal::NotSent => f.write_str("not-sent"),
            Refusal::NoDraft => f.write_str("no-draft"),
            Refusal::Slices(error) => f.write_str(slices_words(error)),
            Refusal::Ranges(error) => f.write_str(ranges_words(error)),
            Refusal::Table(error) => write!(f, "{}", TableWords(error)),
            Refusal::Slicelet(error) => write!(f, "{}", SliceletWords(error)),
            Refusal::Stranger => f.write_str("stranger"),
            Refusal::Clerk(ClerkError::Old { generation }) => write!(f, "old {generation}"),
            Refusal::Unknown => f.write_str("unknown"),
            Refusal::Load(error) => f.write_str(load_words(error)),
            Refusal::Plan(error) => f.write_str(plan_words(error)),
        }
    }
}
