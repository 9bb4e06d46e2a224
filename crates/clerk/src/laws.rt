//! Laws that hold of every clerk.

ghost use Rattle.std.specs.Prelude.{◌≡◌, ◌↔◌, ℕ, List, [], Option, Some, None};
ghost use Rattle.assignment.specs.Slices.{Slicing};
ghost use Rattle.clerk.specs.declared.call.ClerkCall.{ClerkCall};
ghost use Rattle.machines.specs.Calls.{LeadsOn};
ghost use Rattle.clerk.specs.Steps.{look_at};
ghost use Rattle.clerk.specs.Calls.{AnsweredClerkCall, LeadsTo, clerk_step};
ghost use Rattle.clerk.specs.Knowledge.{IsGreatest, accepted_since_forget, clerk_answer, greatest_of};

/// States that a clerk keeps the newest assignment that it accepted since it last forgot.
///
/// After every list of calls that a clerk answered, it keeps the assignment with the greatest
/// generation that it accepted since the last `forget`; there is at most one. `look` returns the
/// generation and the owners of the key in this assignment, or `Unknown` if the clerk keeps none.
/// The reply to the next call is that of the clerk's step from there.
pub fn learnt_law()
    ensures start { LeadsTo [] None }
    ensures next { (past : List AnsweredClerkCall) (state : Option Slicing) (call : ClerkCall) → LeadsTo past state
        → LeadsOn LeadsTo past state call (clerk_step state call) }
    ensures value { (past : List AnsweredClerkCall) (state : Option Slicing) → LeadsTo past state
        → state ≡ greatest_of (accepted_since_forget past) }
    ensures greatest { (past : List AnsweredClerkCall) (state : Option Slicing) (slicing : Slicing) → LeadsTo past state
        → (state ≡ Some slicing) ↔ IsGreatest (accepted_since_forget past) slicing }
    ensures unknown { (past : List AnsweredClerkCall) (state : Option Slicing) → LeadsTo past state
        → (state ≡ None) ↔ (accepted_since_forget past ≡ []) }
    ensures answer { (past : List AnsweredClerkCall) (state : Option Slicing) (key : ℕ) → LeadsTo past state
        → look_at state key ≡ clerk_answer past key }
{}
