//! What the numbers that a caller passes say.

ghost use Rattle.std.specs.Prelude.{◌≡◌};
ghost use Rattle.c_calls.specs.Arguments.{kind_of, slice_key_of, task_of};

use assignment::TaskId;
use lease_rule::Kind;
use slice_ranges::SliceKey;

/// Returns the task with a number, or `None` if no task has it.
pub fn task_of(number: u64) -> Option<TaskId>
    ensures { result ≡ task_of number }
{
    TaskId::new(number)
}

/// Returns the slice key with a number, or `None` if the number is no slice key.
pub fn slice_key_of(number: u64) -> Option<SliceKey>
    ensures { result ≡ slice_key_of number }
{
    SliceKey::new(number)
}

/// Returns the kind of lease with a number: 1 for guard, 2 for bridge.
pub fn kind_of(number: u64) -> Option<Kind>
    ensures { result ≡ kind_of number }
{
    match number {
        1 => Some(Kind::Guard),
        2 => Some(Kind::Bridge),
        _ => None,
    }
}
