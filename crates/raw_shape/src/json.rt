//! The reading of JSON.

ghost use Rattle.std.specs.Prelude.{◌≡◌, Some, None, IfOk, IsErrOf};
ghost use Rattle.serde_json.specs.View.{view};
ghost use Rattle.raw_document.specs.Json.{json};

use serde_json::Value;
use std::alloc::Global;
use version_scan::is_json;

/// Why bytes have no value.
#[derive(Clone, Copy)]
pub enum JsonError {
    NotJson,
    OutOfMemory,
}

/// The value of a JSON text in UTF-8, of up to 127 nested levels.
///
/// Whether the bytes are JSON is found before a tree is made of them.
pub fn read_json(alloc: Global, bytes: &[u8]) -> Result<Value, JsonError>
    ensures value { IfOk result (λ value. json bytes.now ≡ Some (view value)) }
    ensures not_json { IsErrOf result JsonError.NotJson → json bytes.now ≡ None }
{
    match is_json(alloc, bytes) {
        Ok(true) => read_tree(alloc, bytes),
        Ok(false) => Err(JsonError::NotJson),
        Err(_) => Err(JsonError::OutOfMemory),
    }
}

#[tactic(auto, unfolding(raw_document::specs::Json::json))]
fn read_tree(alloc: Global, bytes: &[u8]) -> Result<Value, JsonError>
    ensures value { IfOk result (λ value. json bytes.now ≡ Some (view value)) }
    ensures not_json { IsErrOf result JsonError.NotJson → json bytes.now ≡ None }
{
    match Value::from_slice(alloc, bytes) {
        Ok(value) => Ok(value),
        Err(error) => {
            if error.is_memory() {
                return Err(JsonError::OutOfMemory);
            }
            Err(JsonError::NotJson)
        }
    }
}
