//! A text at the first of some byte.

ghost use Rattle.std.specs.Prelude.{◌≡◌, ◌==◌, ◌<◌, length, position, IfSome};
ghost use Rattle.text_scan.specs.Cuts.{cut_at as cut_of};

use std::marker::Model;

/// What stands before a byte, and what stands behind it.
#[derive(Drop)]
pub struct Cut<'a> {
    pub before: &'a [u8],
    pub behind: &'a [u8],
}

impl<'a> Model for Cut<'a> {
    ghost use Rattle.text_scan.specs.Cuts.{Cut};

    ghost Value = { Cut };

    ghost view = { λ cut. record { before = cut.before.now; behind = cut.behind.now } };
}

/// The text at the first such byte, `None` where it has none: at a space `a b c` is cut into `a`
/// and `b c`.
#[tactic(auto, unfolding(crate::specs::Cuts::cut_at))]
pub fn cut_at(byte: u8, text: &[u8]) -> Option<Cut<'_>>
    ensures exact { result ≡ cut_of byte text.now }
    ensures shorter { IfSome result (λ cut. length cut.behind < length text.now) }
{
    let place = place_of(byte, text)?;
    Some(Cut {
        before: &text[..place],
        behind: &text[place + 1..],
    })
}

fn place_of(byte: u8, text: &[u8]) -> Option<usize>
    ensures exact { result ≡ position (λ other. other == byte) text.now }
    ensures within { IfSome result (λ place. place < length text.now) }
{
    text.iter().position(|other| *other == byte)
}
