//! Members of a line that are the service's own.

ghost use Rattle.std.specs.Prelude.{◌≡◌};
ghost use Rattle.serde_json.specs.View.{view};
ghost use Rattle.log_line.specs.Extensions.{is_extension, without_extensions};

use serde_json::Value;

// Whether a member with this name is an extension.
fn is_extension(name: &str) -> bool
    ensures { result ≡ is_extension name.now }
{
    matches!(name.as_bytes(), [b'_', ..])
}

/// Returns an object without its extensions, the members whose names begin with `_`, and any other
/// value as it is.
pub fn without_extensions(value: Value) -> Value
    ensures { view result ≡ without_extensions (view value) }
{
    match value {
        Value::Object(mut members) => {
            members.retain(|name, _| !is_extension(name.as_str()));
            Value::Object(members)
        }
        other => other,
    }
}
