//! The token that a task has for a key, and the leases that it may give up.

ghost use Rattle.std.specs.Prelude.{◌≡◌, Some, IfOk};
ghost use Rattle.slicelet.specs.NextActions.{next_action};
ghost use Rattle.slicelet.specs.Rules.{covers_key};
ghost use Rattle.slicelet.specs.States.{newest_covering};
ghost use Rattle.fence.specs.Giving.{token_in, may_give_up, carefully};

use crate::token::Token;
use grants::Phase;
use lease_rule::{Ground, Kind, Verdict};
use slice_ranges::SliceKey;
use slicelet::{Slicelet, TaskAction};

/// Why a task has no token for a key.
#[derive(Clone, Copy, Debug, PartialEq, Eq)]
pub enum NoToken {
    /// A slice of the job may have more than one owner, so tokens cannot tell writes of two owners
    /// apart.
    ManyOwners,
    /// The task may not serve the key, for this reason.
    Denied(Ground),
}

/// Returns the token of the slicelet's task for a key at the reading `at`, in ticks.
///
/// Its generation is the greatest among the held leases that cover the key, guard or bridge, whether
/// or not they have ended, and its life that of the task. `most` is the most owners of a slice by the
/// job's policy. The slicelet is unchanged, and no memory is taken.
///
/// The errors, in their order: `ManyOwners` if `most` is above one; `Denied` if
/// [`serve`](Slicelet::serve) denies the key.
pub fn token_of(
    slicelet: &Slicelet,
    most: u64,
    epoch: u32,
    key: SliceKey,
    at: u64,
) -> Result<Token, NoToken>
    ensures token { result ≡ token_in most (covers_key key) epoch slicelet.now at }
    ensures newest { IfOk result (λ token. newest_covering slicelet.now key ≡ Some token.generation) }
{
    if most > 1 {
        return Err(NoToken::ManyOwners);
    }
    match slicelet.serve_and_newest(key, at) {
        (Verdict::Allow { generation, .. }, newest) => {
            let newest = newest.unwrap_or(generation);
            Ok(Token::new(epoch, newest, slicelet.life()))
        }
        (Verdict::Deny(why), _) => Err(NoToken::Denied(why)),
    }
}

/// Whether the task may give up its lease of a kind, so that none of its tokens falls.
///
/// It may always give up a guard lease, and a bridge lease while it holds a guard lease of the same
/// generation or a later one, even if one of the two has ended. A task that is to stop gives its guard
/// lease up and lets the bridge lease end.
pub fn may_give_up(slicelet: &Slicelet, kind: Kind) -> bool
    ensures { result ≡ may_give_up slicelet.now kind }
{
    match kind {
        Kind::Guard => true,
        Kind::Bridge => match (slicelet.held(Kind::Guard), slicelet.held(Kind::Bridge)) {
            (_, None) => true,
            (None, Some(_)) => false,
            (Some(guard), Some(bridge)) => bridge.generation <= guard.generation,
        },
    }
}

/// Returns what the task does next about its leases, as [`next`](Slicelet::next) does, but `Rest` in
/// place of giving up a lease that it must keep.
///
/// In the phase that the table is in, the two are the same. In one that the table has left, `next`
/// may tell the task to give up a bridge lease too early.
pub fn next_careful(slicelet: &Slicelet, phase: Phase, at: u64) -> TaskAction
    ensures { result ≡ carefully slicelet.now (next_action slicelet.now phase at) }
{
    match slicelet.next(phase, at) {
        TaskAction::GiveUp(kind) if !may_give_up(slicelet, kind) => TaskAction::Rest,
        action => action,
    }
}
