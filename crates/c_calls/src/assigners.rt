//! The calls of an assigner.

ghost use Rattle.std.specs.Prelude.{◌≡◌};
ghost use Rattle.assigner.specs.Terms.{adopted_term};
ghost use Rattle.c_calls.specs.Assigners.{IsNext, assigner_action_number, adopt_answer, next_numbers, opened_assigner};
ghost use Rattle.c_calls.specs.tables.Terms.{phase_of, term_of};

use crate::answer::Answer;
use crate::tables::{PhaseNumbers, TermNumbers};
use assigner::{Action, Assigner, View};

fn assigner_action_number(action: Action) -> u32
    ensures { result ≡ assigner_action_number action }
{
    match action {
        Action::Take => 1,
        Action::Renew => 2,
        Action::Commit => 3,
        Action::Propose => 4,
        Action::Rest => 5,
    }
}

/// Creates an assigner, or returns `None` if its number is 0, which no assigner has.
pub fn open_assigner(id: u64, job: u64) -> Option<Assigner>
    ensures { result ≡ opened_assigner id job }
{
    if id == 0 {
        None
    } else {
        Some(Assigner::new(id, job))
    }
}

/// Keeps a term that a table gave, if it is the assigner's own and above the kept term.
pub fn adopt(assigner: &mut Assigner, term: &TermNumbers) -> Answer
    ensures answer { result ≡ adopt_answer assigner.old (term_of term.now) }
    ensures kept { assigner.new ≡ record assigner.old
        { term = adopted_term assigner.old.id (term_of term.now) assigner.old.term } }
{
    if assigner.adopt(term.term()) {
        Answer::Done
    } else {
        Answer::NotAdopted
    }
}

/// Writes what to do next to `action`, and the number of the kept term to `number`, 0 for none.
pub fn next(
    assigner: &Assigner,
    at: u64,
    phase: &PhaseNumbers,
    wanted: u32,
    action: &mut u32,
    number: &mut u64,
) -> Answer
    ensures { IsNext (phase_of phase.now) assigner.now at wanted
        (next_numbers action.old number.old) (next_numbers action.new number.new) result }
{
    let Some(phase) = phase.phase() else {
        return Answer::WrongForm;
    };
    *action = assigner_action_number(assigner.next(&View {
        reading: at,
        phase,
        wanted: wanted != 0,
    }));
    *number = assigner.number();
    Answer::Done
}
