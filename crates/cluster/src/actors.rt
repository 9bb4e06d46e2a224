//! Finding actors and other things by their numbers.

ghost use Rattle.std.specs.Prelude.{◌≡◌, ◌+◌, ◌<◌, false, not, length, MatchOption, option_map};
ghost use Rattle.machines.specs.Numbers.{is_within};
ghost use Rattle.machines.specs.Refusals.{when};
ghost use Rattle.cluster.specs.Numbers.{kept_with_number, with_number};

use job_calls::ClusterError;

/// Returns the place of the actor with this number, or `None` if there is no such actor.
///
/// Numbers begin with 1, places with 0.
pub fn place_of<A>(number: u64, actors: &[A]) -> Option<usize>
    ensures { MatchOption result
        (is_within number (length actors.now) ≡ false)
        (λ place. (place + 1 ≡ number) × (place < length actors.now)) }
{
    if is_within(number, actors.len() as u64) {
        Some((number - 1) as usize)
    } else {
        None
    }
}

/// Whether a number is from 1 to `most`.
pub fn is_within(number: u64, most: u64) -> bool
    ensures { result ≡ is_within number most }
{
    1 <= number && number <= most
}

/// Returns the thing with this number among those that were made, or `None` if there is none.
pub(crate) fn with_number<T>(number: u64, made: &[T]) -> Option<&T>
    ensures { option_map (λ thing. thing.now) result ≡ with_number number made.now }
{
    if number == 0 {
        return None;
    }
    made.get((number - 1) as usize)
}

/// Returns the thing with this number among those that are kept of those that were made, without the
/// first ones, so many, or `None` if it is not kept.
pub(crate) fn kept_with_number<T>(number: u64, before: u64, kept: &[T]) -> Option<&T>
    ensures { option_map (λ thing. thing.now) result ≡ kept_with_number number before kept.now }
{
    if is_within(number, before) {
        return None;
    }
    with_number(number.saturating_sub(before), kept)
}

/// Returns no refusal if `holds`, otherwise `why`.
pub(crate) fn unless(holds: bool, why: ClusterError) -> Option<ClusterError>
    ensures { result ≡ when (not holds) why }
{
    if holds { None } else { Some(why) }
}
