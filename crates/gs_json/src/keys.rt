//! The keys of an object.

ghost use Rattle.std.specs.Prelude.{◌≡◌};
ghost use Rattle.serde_json.specs.View.{view};
ghost use Rattle.gs_json.specs.Shapes.{keys_in};

use serde_json::Value;

/// Returns the number of keys of an object, and 0 for any other value.
pub fn key_count(value: &Value) -> usize
    ensures { result ≡ keys_in (view value.now) }
{
    match value.as_object() {
        Some(members) => members.len(),
        None => 0,
    }
}
