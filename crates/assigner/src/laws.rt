//! Laws that hold after every list of calls of an assigner.

ghost use Rattle.std.specs.Prelude.{ℕ, List};
ghost use Rattle.assigner.specs.Terms.{Call, kept_after, offered_since_drop, IsGreatest};

/// States that an assigner keeps the greatest of its own terms that it was offered.
///
/// After every list of calls, it keeps the greatest, by number and then by end, of its own terms
/// that were offered to it since it last dropped one, or no term if none was offered.
pub fn terms_law()
    ensures { (id : ℕ) (calls : List Call) → IsGreatest (offered_since_drop id calls) (kept_after id calls) }
{}
