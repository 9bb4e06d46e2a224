//! What a thread of a live run notes about its calls.

ghost use Rattle.std.specs.Prelude.{◌≡◌, ℕ, [], IfOk, false, true};
ghost use Rattle.history_lock.specs.Passes.{IsPassOf};
ghost use Rattle.live_run.specs.declared.notes.Halt.TheVariants as halt;
ghost use Rattle.live_run.specs.internals.Notes.{CalledAndNoted, IsNoted, RefusesNoServe, TellsMemory};
ghost use Rattle.live_run.specs.Reports.{is_serve, serves};

use history_lock::Pass;
use job_calls::CallRecord;
use shared_objects::{Actor, CallError, Draws, RefusedCall, Shared, When};
use std::alloc::{AllocError, AllocFailed, Global};
use std::sync::Wait;
use tickets::Spent;

/// Why a thread ends early.
#[derive(Clone, Copy)]
pub(crate) enum Halt {
    /// A call was refused, or what the thread waited for did not happen.
    Stopped,
    /// Memory ran out.
    NoMemory,
}

impl From<AllocError> for Halt {
    ghost from_gives = { λ _ h. h ≡ halt.NoMemory };

    fn from(_error: AllocError) -> Self {
        Halt::NoMemory
    }
}

impl<T: Drop> From<AllocFailed<T>> for Halt {
    ghost from_gives = { λ _ h. h ≡ halt.NoMemory };

    fn from(_error: AllocFailed<T>) -> Self {
        Halt::NoMemory
    }
}

impl From<Spent> for Halt {
    ghost from_gives = { λ _ h. h ≡ halt.Stopped };

    fn from(_error: Spent) -> Self {
        Halt::Stopped
    }
}

/// The records of a thread's calls that wrote no entry, and whether memory ran out in one of its
/// calls.
#[derive(Drop)]
pub(crate) struct Notes {
    records: Vec<CallRecord>,
    starved: bool,
}

impl Notes {
    /// Creates the notes of a thread that has made no call.
    pub(crate) fn new(alloc: Global) -> Notes
        ensures records { result.records.items ≡ [] }
        ensures fed { result.starved ≡ false }
    {
        Notes {
            records: Vec::new(alloc),
            starved: false,
        }
    }

    /// Notes the result of a call that may write: the record of a refusal, or that memory ran out.
    pub(crate) fn note<A: Drop, F: Drop>(
        &mut self,
        answer: Result<A, CallError<F>>,
    ) -> Result<A, Halt>
        requires quiet { RefusesNoServe answer }
        requires fed { self.old.starved ≡ false }
        ensures noted { IsNoted answer self.old result self.new }
        ensures memory { TellsMemory result self.new }
        ensures served { serves self.new.records.items ≡ serves self.old.records.items }
    {
        match answer {
            Ok(answer) => Ok(answer),
            Err(CallError::Refused(why)) => {
                let RefusedCall { fault: _, call } = why;
                if self.records.push(call).is_err() {
                    return Err(self.starve());
                }
                Err(Halt::Stopped)
            }
            Err(CallError::NoMemory) => Err(self.starve()),
            Err(CallError::Spent) => Err(Halt::Stopped),
            Err(CallError::HistoryFull) => Err(Halt::Stopped),
        }
    }

    /// Notes that memory ran out in a call.
    pub(crate) fn starve(&mut self) -> Halt
        ensures halt { result ≡ halt.NoMemory }
        ensures starved { self.new ≡ record self.old { starved = true } }
    {
        self.starved = true;
        Halt::NoMemory
    }

    /// Returns the records.
    pub(crate) fn into_records(self) -> Vec<CallRecord>
        ensures { result ≡ self.records }
    {
        self.records
    }
}

/// Makes a call at its ticket, and notes its record if it is refused, or that memory ran out.
#[tactic(auto, using(crate::proofs::Lanes::called_lane, crate::proofs::Quiet::called_quiet, crate::proofs::Noting::called_noted))]
pub(crate) fn call_noted<R: Wait, M: Actor>(
    rt: &R,
    object: &Shared<M>,
    pass: &mut Pass<M>,
    draws: &mut Draws<'_>,
    notes: &mut Notes,
    call: M::Call,
) -> Result<M::Reply, Halt>
    requires own { IsPassOf object.now.lock pass.old }
    requires quiet { (ticket : ℕ) → is_serve (M.recorded object.now.number (M.at call ticket)) ≡ false }
    requires fed { notes.old.starved ≡ false }
    ensures own { IsPassOf object.now.lock pass.new }
    ensures lane { pass.new.lane ≡ pass.old.lane }
    ensures ticket { draws.new.ticket ≡ draws.old.ticket }
    ensures served { serves notes.new.records.items ≡ serves notes.old.records.items }
    ensures memory { TellsMemory result notes.new }
    ensures noted { CalledAndNoted M.step object.now.lock draws.old.pass draws.new.pass (λ ticket. M.at call ticket) (λ ticket. M.recorded object.now.number (M.at call ticket)) M.told pass.old notes.old result pass.new notes.new }
    ensures reply { IfOk result (λ reply. M.is_reply call reply) }
{
    let answer = object.write(rt, pass, draws, call, When::AtTicket);
    notes.note(answer)
}
