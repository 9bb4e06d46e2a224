//! Numbers that may be 2^53 or more.

ghost use Rattle.std.specs.Prelude.{◌≡◌, IfOk};
ghost use Rattle.serde_json.specs.View.{view};
ghost use Rattle.reply_values.specs.Values.{large_data};

use serde_json::Value;
use std::alloc::{AllocError, Global};
use wire::{Numerals, numeral_json};

/// Writes a number that may be 2^53 or more, as the text of its decimal digits.
pub fn large_json(alloc: Global, number: u64) -> Result<Value, AllocError>
    ensures { IfOk result (λ v. view v ≡ large_data number) }
{
    numeral_json(alloc, Numerals::Quoted, number)
}
