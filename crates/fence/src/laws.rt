//! What holds of every store that checks tokens, and of every careful task.

ghost use Rattle.std.specs.Prelude.{◌≡◌, ℕ, ◌<◌, ◌↔◌, true, false, List, Contains};
ghost use Rattle.std.specs.List.{AllByRecursion};
ghost use Rattle.lease_rule.specs.declared.lease.Kind.{Kind};
ghost use Rattle.grants.specs.declared.values.Phase.{Phase};
ghost use Rattle.slicelet.specs.declared.next_action.TaskAction.TheVariants.{GiveUp};
ghost use Rattle.slicelet.specs.NextActions.{next_action};
ghost use Rattle.slicelet.specs.States.{SliceletState};
ghost use Rattle.fence.specs.declared.token.Token.{Token};
ghost use Rattle.fence.specs.Tokens.{IsBelow, IsUpTo};
ghost use Rattle.fence.specs.Giving.{may_give_up, carefully};
ghost use Rattle.fence.specs.Requests.{Request};
ghost use Rattle.fence.specs.Shelves.{shelf_after, accepts, AreInTurn};

/// States what a store accepts that refuses each write of a key with a token below the greatest one
/// that it accepted.
///
/// A write is accepted exactly if the greatest token is at most its own. The writes were offered in
/// any order, each as often as one likes. Each accepted write was offered. The tokens of accepted
/// writes never fall, and a token below that of an accepted write is refused. A token that is at
/// least each one that was offered is accepted, and so is one of a later epoch than all of them.
pub fn store_law()
    ensures test { (greatest token : Token) → (accepts greatest token ≡ true) ↔ IsUpTo greatest token }
    ensures among { (offered : List Request) (accepted : Request) → Contains (shelf_after offered).accepted accepted → Contains offered accepted }
    ensures rising { (offered : List Request) → AreInTurn (λ last earlier. IsUpTo earlier.token last.token) (shelf_after offered).accepted }
    ensures refused { (offered : List Request) (accepted : Request) (token : Token) → Contains (shelf_after offered).accepted accepted
        → IsBelow token accepted.token → accepts (shelf_after offered).greatest token ≡ false }
    ensures highest { (offered : List Request) (token : Token) → AllByRecursion (λ write. IsUpTo write.token token) offered
        → accepts (shelf_after offered).greatest token ≡ true }
    ensures anew { (offered : List Request) (token : Token) → AllByRecursion (λ write. write.token.epoch < token.epoch) offered
        → accepts (shelf_after offered).greatest token ≡ true }
{}

/// States that [`next_careful`](crate::next_careful) never tells a task to give up a lease that it
/// must keep, whatever phase it is given.
pub fn care_law()
    ensures { (s : SliceletState) (phase : Phase) (at : ℕ) (kind : Kind) → carefully s (next_action s phase at) ≡ GiveUp kind
        → may_give_up s kind ≡ true }
{}
