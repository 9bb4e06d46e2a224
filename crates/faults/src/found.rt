//! JSON values in words.

use serde_json::Value;
use std::fmt;

/// Displays what a JSON value is: a number or a flag as written, anything else by its kind.
#[derive(Clone, Copy)]
pub struct Found<'v>(pub &'v Value);

impl fmt::Display for Found<'_> {
    fn fmt<W: fmt::Write>(&self, f: &mut fmt::Formatter<W>) -> fmt::Result {
        match self.0 {
            Value::Null => f.write_str("null"),
            Value::Bool(true) => f.write_str("true"),
            Value::Bool(false) => f.write_str("false"),
            Value::Number(number) => write!(f, "{number}"),
            Value::String(_) => f.write_str("a string"),
            Value::Array(_) => f.write_str("an array"),
            Value::Object(_) => f.write_str("an object"),
        }
    }
}
