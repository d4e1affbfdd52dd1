//! The whole text.

ghost use Rattle.std.specs.Prelude.{◌≡◌, is_some, IfOk};
ghost use Rattle.raw_document.specs.Json.{json};
ghost use Rattle.serde_json.specs.Read.{read};

use crate::passing::pass;
use json::{Reader, Scratch};
use std::alloc::{AllocError, Global};

// Most arrays and objects that may stand in one another.
pub(crate) const MAX_DEPTH: usize = 127;

/// Whether bytes are a JSON text in UTF-8, of up to 127 nested levels.
///
/// It takes as much memory as there are bytes, and keeps none of it.
pub fn is_json(alloc: Global, bytes: &[u8]) -> Result<bool, AllocError>
    ensures { IfOk result (λ is. is ≡ is_some (json bytes.now)) }
{
    let Ok(text) = simdutf8::compat::from_utf8(bytes) else {
        return Ok(false);
    };
    let mut scratch = Scratch::new(alloc);
    text_is_json(text, &mut scratch)
}

fn text_is_json(text: &str, scratch: &mut Scratch) -> Result<bool, AllocError>
    ensures { IfOk result (λ is. is ≡ is_some (read text.now)) }
{
    let mut reader = Reader::new(text, scratch)?;
    if pass(&mut reader, MAX_DEPTH).is_none() {
        return Ok(false);
    }
    Ok(reader.next().is_none())
}
