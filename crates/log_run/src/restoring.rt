//! Whether a table is restored from the values that a line tells.

ghost use Rattle.std.specs.Prelude.{◌≡◌};
ghost use Rattle.log_run.specs.Restores.{IsChecked, is_less, is_same};

use grants::Kept;
use log_line::{KeptNumbers, MOST_AHEAD, RestoreFault, numbers_of};

// Whether a value is below that of a table.
fn is_less(numbers: KeptNumbers, table: KeptNumbers) -> bool
    ensures { result ≡ is_less numbers table }
{
    numbers.granted < table.granted
        || numbers.last < table.last
        || numbers.deadline < table.deadline
}

fn is_same(numbers: KeptNumbers, other: KeptNumbers) -> bool
    ensures { result ≡ is_same numbers other }
{
    numbers.granted == other.granted
        && numbers.last == other.last
        && numbers.deadline == other.deadline
}

/// Returns why a table that keeps `kept` is not restored from these values, if it is not.
pub fn restore_fault(mut kept: Kept, numbers: KeptNumbers) -> Option<RestoreFault>
    ensures { IsChecked kept numbers result }
{
    let table = numbers_of(&kept);
    if is_less(numbers, table) {
        return Some(RestoreFault::LessThanLog);
    }
    let more = numbers.granted - table.granted;
    if more > MOST_AHEAD {
        return Some(RestoreFault::FarAhead);
    }
    kept.save_ahead(more, numbers.last - table.last);
    if is_same(numbers_of(&kept), numbers) {
        None
    } else {
        Some(RestoreFault::NotAhead)
    }
}
