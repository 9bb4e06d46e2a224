//! A clerk that threads share.

ghost use Rattle.std.specs.Prelude.{◌≡◌, IfErr};
ghost use Rattle.clerk.specs.Calls.{event_step};
ghost use Rattle.clerk.specs.Steps.{look_at};
ghost use Rattle.clerk.specs.declared.call.ClerkCall.TheVariants as clerk_call;
ghost use Rattle.clerk.specs.declared.call.ClerkReply.TheVariants as clerk_reply;
ghost use Rattle.cluster.specs.Replies.{look_reply};
ghost use Rattle.history_lock.specs.Passes.{IsPassOf};
ghost use Rattle.job_calls.specs.declared.call.ClusterCall.TheVariants as recorded_call;
ghost use Rattle.shared_objects.specs.Calls.{AsksFor, CalledToAsk, IsNoRefusal};
ghost use Rattle.shared_objects.specs.Objects.{CalledClerk};

use crate::draws::Draws;
use crate::error::{CallError, Recorded};
use crate::queries::AskLook;
use crate::shared::Shared;
use crate::when::When;
use assignment::Assignment;
use clerk::{Clerk, ClerkCall, ClerkError, Found, Unknown};
use history_lock::Pass;
use slice_ranges::SliceKey;
use std::sync::Wait;
use tickets::Spent;

/// A clerk that threads share.
///
/// It is created from the number under which its calls are recorded, and knows no assignment then.
/// Its calls have no reading.
pub type SharedClerk = Shared<Clerk>;

impl SharedClerk {
    /// Learns an assignment, which replaces the one that the clerk knows.
    ///
    /// # Errors
    ///
    /// Those of [`CallError`], in its order. The clerk refuses with `Old`. An error leaves the clerk
    /// and its history unchanged.
    #[tactic(auto, using(crate::proofs::Naming::named_answer))]
    pub fn learn<R: Wait>(
        &self,
        rt: &R,
        pass: &mut Pass<Clerk>,
        draws: &mut Draws<'_>,
        assignment: Assignment,
    ) -> Result<(), CallError<ClerkError>>
        requires own { IsPassOf self.now.lock pass.old }
        ensures own { IsPassOf self.now.lock pass.new }
        ensures ticket { draws.new.ticket ≡ draws.old.ticket }
        ensures answer { CalledClerk self.now draws.old.pass draws.new.pass
            (clerk_call.Learn assignment) (λ _. clerk_reply.Learnt)
            pass.old result pass.new }
    {
        let call = ClerkCall::Learn(assignment);
        match self.write(rt, pass, draws, call, When::AtTicket) {
            Ok(_) => Ok(()),
            Err(error) => Err(error),
        }
    }

    /// Forgets the assignment that the clerk knows, if it knows one.
    ///
    /// # Errors
    ///
    /// Those of [`CallError`], in its order. A clerk never refuses to forget, so it never has a
    /// record. An error leaves the clerk and its history unchanged.
    #[tactic(auto, using(crate::proofs::Naming::named_answer))]
    pub fn forget<R: Wait>(
        &self,
        rt: &R,
        pass: &mut Pass<Clerk>,
        draws: &mut Draws<'_>,
    ) -> Result<(), CallError<ClerkError>>
        requires own { IsPassOf self.now.lock pass.old }
        ensures own { IsPassOf self.now.lock pass.new }
        ensures ticket { draws.new.ticket ≡ draws.old.ticket }
        ensures answer { CalledClerk self.now draws.old.pass draws.new.pass
            clerk_call.Forget (λ _. clerk_reply.Forgotten)
            pass.old result pass.new }
        ensures unrefused { IfErr result IsNoRefusal }
    {
        let call = ClerkCall::Forget;
        match self.write(rt, pass, draws, call, When::AtTicket) {
            Ok(_) => Ok(()),
            Err(error) => Err(error),
        }
    }

    /// Returns who owns a key as far as the clerk knows, and the generation that says so.
    ///
    /// The answer is [`Unknown`] if the clerk knows no assignment. Fails with [`Spent`] if the ticket
    /// pass may draw no more.
    pub fn look<R: Wait>(
        &self,
        rt: &R,
        pass: &mut Pass<Clerk>,
        draws: &mut Draws<'_>,
        key: SliceKey,
    ) -> Result<Recorded<Result<Found, Unknown>>, Spent>
        requires own { IsPassOf self.now.lock pass.old }
        ensures own { IsPassOf self.now.lock pass.new }
        ensures ticket { draws.new.ticket ≡ draws.old.ticket }
        ensures answer { CalledToAsk draws.old.pass draws.new.pass
            (AsksFor event_step self.now.lock draws.old.pass draws.new.pass
            (λ clerk _ answer. answer ≡ look_at clerk key)
            (λ _. recorded_call.Look self.now.number key) look_reply)
            pass.old result pass.new }
    {
        self.ask(rt, pass, draws, AskLook { key }, When::AtTicket)
    }
}
