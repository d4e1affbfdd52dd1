//! The words of a line, one after another.

ghost use Rattle.std.specs.Prelude.{◌≡◌, [], ◌∷◌, IfSome, IfNone};
ghost use Rattle.text_scan.specs.Words.{words_of};

use std::marker::Model;

/// The words of a line that are left. Words stand with one space between them: two spaces have an
/// empty word between them.
#[derive(Drop)]
pub struct Words<'a> {
    rest: Option<&'a str>,
}

impl<'a> Model for Words<'a> {
    ghost use Rattle.std.specs.Prelude.{ℕ, List, option_map};
    ghost use Rattle.text_scan.specs.Words.{words_left};

    ghost Value = { List (List ℕ) };

    ghost view = { λ words. words_left (option_map (λ rest. rest.now) words.rest) };
}

impl<'a> Words<'a> {
    /// All words of a line. An empty line has one word, which is empty; `post  r0` has three, of
    /// which the second is.
    pub fn new(line: &'a str) -> Words<'a>
        ensures { result ≡ words_of line.entry.now }
    {
        Words { rest: Some(line) }
    }

    /// The next word, `None` where none is left.
    #[tactic(auto, using(crate::proofs::WordFacts::word_next, crate::proofs::WordFacts::word_last))]
    pub fn next_word(&mut self) -> Option<&'a str>
        ensures some { IfSome result (λ word. self.old ≡ word.now ∷ self.new) }
        ensures none { IfNone result (self.old ≡ []) }
    {
        let line = self.rest?;
        match line.split_once(' ') {
            Some((word, rest)) => {
                self.rest = Some(rest);
                Some(word)
            }
            None => {
                self.rest = None;
                Some(line)
            }
        }
    }
}
