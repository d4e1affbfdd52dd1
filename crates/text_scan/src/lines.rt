//! The lines of a text, one after another.

ghost use Rattle.std.specs.Prelude.{◌≡◌, ◌+◌, ◌∷◌, [], ◌==◌, length, IfSome, IfNone, OnSome};
ghost use Rattle.text_scan.specs.Lines.{left_of, lines_of};

use crate::cut::cut_at;
use std::marker::Model;

/// What is left of a text, and the number of its next line in the whole.
#[derive(Drop)]
pub struct Lines<'a> {
    rest: &'a [u8],
    number: u64,
}

impl<'a> Model for Lines<'a> {
    ghost use Rattle.std.specs.Prelude.{◌+◌, ◌<◌, ◌^◌, length};
    ghost use Rattle.text_scan.specs.Lines.{LinesLeft, left_of, lines_of};

    ghost Value = { LinesLeft };

    ghost view = { λ text.
        record {
          lines = lines_of text.rest.now;
          left = left_of text.rest.now;
          number = text.number;
        } };

    ghost invariant = { λ text. text.number + length text.rest.now < 2 ^ 64 };
}

impl<'a> Lines<'a> {
    /// All lines of a text, from number 0 on.
    pub fn new(text: &'a [u8]) -> Lines<'a>
        ensures { result
            ≡ record {
              lines = lines_of text.entry.now;
              left = left_of text.entry.now;
              number = 0;
            } }
    {
        Lines {
            rest: text,
            number: 0,
        }
    }

    /// The number of the next line.
    pub fn number(&self) -> u64
        ensures { result ≡ self.now.number }
    {
        self.number
    }

    /// The next line, `None` where no line feed is left. Of `a`, a line feed and `b` it is `a`, and
    /// `b` is no line.
    #[tactic(auto, using(crate::proofs::LineFacts::line_next, crate::proofs::LineFacts::left_next, crate::proofs::LineFacts::no_line))]
    pub fn next_line(&mut self) -> Option<&'a [u8]>
        ensures some { IfSome result (λ line. self.old.lines ≡ line.now ∷ self.new.lines) }
        ensures number { OnSome result (self.new.number ≡ self.old.number + 1) }
        ensures left { self.new.left ≡ self.old.left }
        ensures none { IfNone result (self.old.lines ≡ []) }
        ensures end { IfNone result (self.new ≡ self.old) }
    {
        let cut = cut_at(b'\n', self.rest)?;
        self.rest = cut.behind;
        self.number += 1;
        Some(cut.before)
    }

    /// Whether nothing follows the last line feed, once no line is left.
    #[tactic(auto, using(crate::proofs::LineFacts::left_whole))]
    pub fn is_empty(&self) -> bool
        requires { self.now.lines ≡ [] }
        ensures { result ≡ (length self.now.left == 0) }
    {
        self.rest.is_empty()
    }
}
