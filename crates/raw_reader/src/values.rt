//! Single tokens.

ghost use Rattle.std.specs.Prelude.{◌≡◌, ◌==◌, slice_index, ◌<◌, ℕ, List, ◌∷◌, Some, IfSome, OnSome, IsTrue};
ghost use Rattle.json.specs.Token.{begin_array, begin_object, string, number as number_token};
ghost use Rattle.serde_json.specs.Data.{unsigned};
ghost use Rattle.serde_json.specs.Read.{number_of};
ghost use Rattle.raw_document.specs.Words.{word};

use crate::source::Source;
use json::Token;
use raw_document::DocKey;
use version_scan::whole_number;

/// Most arrays and objects that may stand in one another.
pub const MAX_DEPTH: usize = 127;

/// Whether this is the key. Most keys differ in length, which takes no call to compare.
#[inline(always)]
pub fn is(text: &str, key: DocKey) -> bool
    ensures { IsTrue result → text.now ≡ word key }
{
    let word = key.text();
    text.len() == word.len() && text == word
}

/// Takes the bracket that opens an array, where one may still open.
pub fn open_array(reader: &mut Source<'_, '_>, depth: usize) -> Option<()>
    ensures { OnSome result ((reader.old ≡ begin_array ∷ reader.new) × (0 < depth)) }
{
    match reader.next()? {
        Token::BeginArray if depth > 0 => Some(()),
        _ => None,
    }
}

/// Takes the brace that opens an object, where one may still open.
pub fn open_object(reader: &mut Source<'_, '_>, depth: usize) -> Option<()>
    ensures { OnSome result ((reader.old ≡ begin_object ∷ reader.new) × (0 < depth)) }
{
    match reader.next()? {
        Token::BeginObject if depth > 0 => Some(()),
        _ => None,
    }
}

/// Takes a text.
pub fn text<'a>(reader: &mut Source<'a, '_>) -> Option<&'a str>
    ensures { IfSome result (λ s. reader.old ≡ string s.now ∷ reader.new) }
{
    reader.text()
}

/// Takes a number without a sign, a fraction or an exponent, of at most 64 bits.
pub fn number(reader: &mut Source<'_, '_>) -> Option<u64>
    ensures { IfSome result (λ n. (s : List ℕ) × (reader.old ≡ number_token s ∷ reader.new)
        × (number_of s ≡ Some (unsigned n))) }
{
    match reader.next()? {
        Token::Number(digits) => whole_number(digits),
        _ => None,
    }
}
