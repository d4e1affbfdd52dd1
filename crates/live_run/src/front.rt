//! The document in front of the input, as its bytes come.

ghost use Rattle.std.specs.Prelude.{◌≡◌, ◌==◌, None, true, false, position};
ghost use Rattle.two_part.specs.TwoPart.{parts_of};
ghost use Rattle.live_run.specs.Front.{IsFront, SaysLong, SaysNotLong, SaysNotTooLong};

use bwe_specs::{MAX_INPUT, MAX_LONG_INPUT};
use text_scan::{is_number, number_of};
use two_part::{Parts, find_parts, first_line_feed};

/// What is known of the front.
#[derive(Clone, Copy, Debug, PartialEq, Eq, Drop)]
pub(crate) enum Front {
    /// More bytes are to come before the document is whole.
    Open,
    /// The document is whole.
    Found(Parts),
    /// There is no document, whatever follows.
    Missing,
    /// It is to have more bytes than any document may.
    TooLong,
}

/// What these bytes say of the front. It looks at no byte behind the number.
pub(crate) fn front_of(bytes: &[u8]) -> Front
    ensures { IsFront bytes.now result }
{
    let Some(line_feed) = first_line_feed(bytes) else {
        return unended(bytes);
    };
    let digits = &bytes[..line_feed];
    if !is_number(digits) {
        return Front::Missing;
    }
    let Some(number) = number_of(digits) else {
        return Front::TooLong;
    };
    if number > MAX_LONG_INPUT {
        return Front::TooLong;
    }
    whole(bytes)
}

/// Whether a number above 67,108,864 is in front, the most bytes of a document that is not of
/// version 4.
pub(crate) fn says_long(bytes: &[u8]) -> bool
    ensures yes { result ≡ true → SaysLong bytes.now }
    ensures no { result ≡ false → SaysNotLong bytes.now }
{
    let Some(line_feed) = first_line_feed(bytes) else {
        return false;
    };
    let digits = &bytes[..line_feed];
    if !is_number(digits) {
        return false;
    }
    let Some(number) = number_of(digits) else {
        return true;
    };
    number > MAX_INPUT
}

// The front where no line has ended yet.
fn unended(bytes: &[u8]) -> Front
    requires { position (λ byte. byte == 10) bytes.now ≡ None }
    ensures { IsFront bytes.now result }
{
    if bytes.is_empty() {
        return Front::Open;
    }
    if is_number(bytes) {
        return Front::Open;
    }
    Front::Missing
}

// The front where a number stands before it that is not too great.
fn whole(bytes: &[u8]) -> Front
    requires { SaysNotTooLong bytes.now }
    ensures { IsFront bytes.now result }
{
    match find_parts(bytes) {
        Some(parts) => Front::Found(parts),
        None => Front::Open,
    }
}
