//! Finding actors by their numbers, and refusals of the layers below as refusals of a step.

ghost use Rattle.std.specs.Prelude.{◌≡◌, ◌+◌, ◌<◌, true, false, length, MatchResult};
ghost use Rattle.machines.specs.declared.machine.Trouble.TheVariants as trouble;
ghost use Rattle.machines.specs.Numbers.{is_within};
ghost use Rattle.replies.specs.declared.reply.Refusal.TheVariants as refusal;
ghost use Rattle.world.specs.Troubles.{of_layer};

use assignment::AssignmentError;
use load_ledger::LoadError;
use machines::Trouble;
use replies::Refusal;
use weighted_move::PlanError;

/// Returns the place of the actor with this number, or refuses with `NoActor`.
///
/// Numbers begin with 1, places with 0.
pub fn place_of<A>(number: u64, actors: &[A]) -> Result<usize, Trouble<Refusal>>
    ensures { MatchResult result
        (λ place. (place + 1 ≡ number) × (place < length actors.now))
        (λ why. (why ≡ trouble.Refused refusal.NoActor) × (is_within number (length actors.now) ≡ false)) }
{
    match cluster::place_of(number, actors) {
        Some(place) => Ok(place),
        None => Err(Trouble::Refused(Refusal::NoActor)),
    }
}

/// Refuses with `NoActor` if `number` is not from 1 to `most`.
pub fn check_actor(number: u64, most: u64) -> Result<(), Trouble<Refusal>>
    ensures { MatchResult result
        (λ _. is_within number most ≡ true)
        (λ why. (why ≡ trouble.Refused refusal.NoActor) × (is_within number most ≡ false)) }
{
    if cluster::is_within(number, most) {
        Ok(())
    } else {
        Err(Trouble::Refused(Refusal::NoActor))
    }
}

/// Returns the reason why work is not counted, as a step's refusal.
pub fn of_load(error: Trouble<LoadError>) -> Trouble<Refusal>
    ensures { result ≡ of_layer refusal.Load error }
{
    match error {
        Trouble::Refused(why) => Trouble::Refused(Refusal::Load(why)),
        Trouble::NoMemory => Trouble::NoMemory,
    }
}

/// Returns the reason why slices make no assignment, as a step's refusal.
pub fn of_slices(error: Trouble<AssignmentError>) -> Trouble<Refusal>
    ensures { result ≡ of_layer refusal.Slices error }
{
    match error {
        Trouble::Refused(why) => Trouble::Refused(Refusal::Slices(why)),
        Trouble::NoMemory => Trouble::NoMemory,
    }
}

/// Returns the reason why there is no plan, as a step's refusal.
pub fn of_plan(error: Trouble<PlanError>) -> Trouble<Refusal>
    ensures { result ≡ of_layer refusal.Plan error }
{
    match error {
        Trouble::Refused(why) => Trouble::Refused(Refusal::Plan(why)),
        Trouble::NoMemory => Trouble::NoMemory,
    }
}
