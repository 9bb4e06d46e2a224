//! The calls of a lock.

ghost use Rattle.std.specs.Prelude.{◌≡◌, Ok, IfErr, MatchResult};
ghost use Rattle.std.specs.Fn.{CalledAt, TakesAt};
ghost use Rattle.history_lock.specs.Histories.{IsLegal};
ghost use Rattle.history_lock.specs.Passes.{PassView, IsPassOf};
ghost use Rattle.history_lock.specs.Answers.{HasWaited, IsTurnedAway, Wrote, TriedToWrite, Shared, TriedToShare, TriedToMeet, IsWriterAt};

use crate::error::{Busy, LockError, WriteError};
use crate::pass::{LaneLock, Pass};
use crate::turn::{meet_at, share_at, write_at};
use crate::waiting::pause;
use machines::Machine;
use std::sync::Wait;

impl<M: Machine> LaneLock<M> {
    // Makes a write, or returns why its claim was refused.
    fn attempt<F: FnMut() -> M::Event>(
        &self,
        pass: &mut Pass<M>,
        make: &mut F,
    ) -> Result<Result<M::Reply, WriteError<M::Event, M::Fault>>, Busy>
        requires own { IsPassOf self.now pass.old }
        requires may { F.pre make.old }
        ensures own { IsPassOf self.now pass.new }
        ensures legal { IsLegal M.step self.now.opened.machine pass.new.seen }
        ensures answer { MatchResult result
            (λ answer. Wrote M.step self.now (λ event. F.step make.old event make.new) (make.new ≡ make.old) pass.old answer pass.new)
            (λ busy. (make.new ≡ make.old) × IsTurnedAway self.now pass.old busy pass.new) }
    {
        write_at(
            &self.lane_table.shared,
            &mut pass.seat,
            pass.lane,
            self.lanes,
            self.limit,
            self.alloc,
            make,
        )
    }

    /// Adds the event that `make` returns to the history, and returns the machine's reply.
    ///
    /// `make` is called at most once, while the lock is held; on `Busy` and `HistoryFull` it is not
    /// called.
    ///
    /// Errors, in this order: the lock is held ([`LockError::Busy`]), the history is full, the
    /// machine refuses the event, which is handed back. Out of memory may be returned instead of
    /// the last error or of a reply if `make` was not called, and afterwards only if the machine
    /// would accept the event. A write that fails adds nothing to the history.
    pub fn try_write<F: FnMut() -> M::Event>(
        &self,
        pass: &mut Pass<M>,
        make: &mut F,
    ) -> Result<M::Reply, LockError<M::Event, M::Fault>>
        requires own { IsPassOf self.now pass.old }
        requires may { F.pre make.old }
        ensures own { IsPassOf self.now pass.new }
        ensures legal { IsLegal M.step self.now.opened.machine pass.new.seen }
        ensures answer { TriedToWrite M.step self.now (λ event. F.step make.old event make.new) (make.new ≡ make.old) pass.old result pass.new }
    {
        match self.attempt(pass, make) {
            Ok(answer) => answer.map_err(LockError::Write),
            Err(busy) => Err(LockError::Busy(busy)),
        }
    }

    /// Waits until the lock is free, then adds the event that `make` returns and returns the reply.
    ///
    /// `make` and the errors are as in [`try_write`](Self::try_write), without `Busy`.
    #[tactic(auto, using(crate::proofs::Waits::waits_not, crate::proofs::Waits::waits_once_more))]
    pub fn write<R: Wait, F: FnMut() -> M::Event>(
        &self,
        rt: &R,
        pass: &mut Pass<M>,
        make: &mut F,
    ) -> Result<M::Reply, WriteError<M::Event, M::Fault>>
        requires own { IsPassOf self.now pass.old }
        requires may { F.pre make.old }
        ensures own { IsPassOf self.now pass.new }
        ensures legal { IsLegal M.step self.now.opened.machine pass.new.seen }
        ensures answer { (late : PassView M M.Event) × HasWaited self.now pass.old late
            × Wrote M.step self.now (λ event. F.step make.old event make.new) (make.new ≡ make.old) late result pass.new }
    {
        self.writers.enter();
        let mut looks = 0u32;
        for _ in rt.forever() {
            if let Ok(answer) = self.attempt(pass, make) {
                self.writers.leave();
                return answer;
            }
            pause(looks);
            looks = looks.saturating_add(1);
        }
        unreachable!()
    }

    /// Lends the machine to `f`, once, and returns the result of `f`.
    ///
    /// The only error is `Busy`, if a writer holds the lane of the pass; `f` is then not called.
    pub fn try_shared<T, F: FnMut(&M) -> T>(&self, pass: &mut Pass<M>, f: &mut F) -> Result<T, Busy>
        requires own { IsPassOf self.now pass.old }
        requires may { (machine : M) → TakesAt F.FnMut f.old machine }
        ensures own { IsPassOf self.now pass.new }
        ensures legal { IsLegal M.step self.now.opened.machine pass.new.seen }
        ensures answer { TriedToShare M.step self.now (λ machine answer. CalledAt F.FnMut f.old machine answer f.new) (f.new ≡ f.old) pass.old result pass.new }
        ensures turned { IfErr result (λ busy. IsWriterAt pass.old.lane busy) }
    {
        share_at(&self.lane_table.shared, &mut pass.seat, pass.lane, f)
    }

    /// Waits until no writer holds the lane of the pass, then lends the machine to `f`, once.
    ///
    /// Returns the result of `f`, as [`try_shared`](Self::try_shared) does.
    #[tactic(auto, using(crate::proofs::Waits::waits_not, crate::proofs::Waits::waits_once_more))]
    pub fn shared<R: Wait, T, F: FnMut(&M) -> T>(&self, rt: &R, pass: &mut Pass<M>, f: &mut F) -> T
        requires own { IsPassOf self.now pass.old }
        requires may { (machine : M) → TakesAt F.FnMut f.old machine }
        ensures own { IsPassOf self.now pass.new }
        ensures legal { IsLegal M.step self.now.opened.machine pass.new.seen }
        ensures answer { (late : PassView M M.Event) × HasWaited self.now pass.old late
            × Shared M.step self.now (λ machine answer. CalledAt F.FnMut f.old machine answer f.new) late result pass.new }
    {
        for _ in rt.forever() {
            self.writers.let_pass();
            if let Ok(answer) = self.try_shared(pass, f) {
                return answer;
            }
        }
        unreachable!()
    }

    /// Lets the first pass see all that the second one has seen.
    ///
    /// The only error is `Busy`, if a writer holds the lane of the first pass. The second pass is
    /// unchanged.
    pub fn try_meet(&self, first: &mut Pass<M>, second: &mut Pass<M>) -> Result<(), Busy>
        requires own { IsPassOf self.now first.old }
        requires other { IsPassOf self.now second.old }
        ensures own { IsPassOf self.now first.new }
        ensures legal { IsLegal M.step self.now.opened.machine first.new.seen }
        ensures first { TriedToMeet self.now first.old second.old result first.new }
        ensures second { second.new ≡ second.old }
        ensures turned { IfErr result (λ busy. IsWriterAt first.old.lane busy) }
    {
        meet_at(
            &self.lane_table.shared,
            &mut first.seat,
            first.lane,
            &mut second.seat,
            second.lane,
        )
    }
}
