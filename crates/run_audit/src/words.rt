//! The words of a line, and the numbers and names among them.
ghost use Rattle.std.specs.Prelude.{◌≡◌, ◌<◌, length, IfNone, IfSome};
ghost use Rattle.text_scan.specs.Words.{words_of};
ghost use Rattle.doc_names.specs.NameTexts.{entry_at};
ghost use Rattle.run_audit.specs.Words.{is_known as is_known_word, is_word as is_word_of, number_at as number_in};

use doc_names::NameList;
use std::marker::Model;
use text_scan::{cut_at, printed_number_of};

/// The words of a line that has at most seven, which is the most that a form has.
#[derive(Drop)]
pub(crate) struct LineWords<'a> {
    words: [&'a [u8]; 7],
    count: usize,
}

impl<'a> Model for LineWords<'a> {
    ghost use Rattle.std.specs.Prelude.{ℕ, ◌≤◌, List, map, take};

    ghost Value = { List (List ℕ) };

    ghost view = { λ line. take line.count (map (λ word. word.now) line.words) };

    ghost invariant = { λ line. line.count ≤ 7 };
}

/// The words of a line, cut in one walk over it; `None` where it has more than seven.
pub(crate) fn split(line: &[u8]) -> Option<LineWords<'_>>
    ensures some { IfSome result (λ words. words ≡ words_of line.now) }
    ensures none { IfNone result (7 < length (words_of line.now)) }
{
    let mut words: [&[u8]; 7] = [line; 7];
    let mut rest = line;
    for count in 0..7 {
        let Some(cut) = cut_at(b' ', rest) else {
            words[count] = rest;
            return Some(LineWords {
                words,
                count: count + 1,
            });
        };
        words[count] = cut.before;
        rest = cut.behind;
    }
    None
}

impl<'a> LineWords<'a> {
    /// How many there are.
    pub(crate) fn count(&self) -> usize
        ensures { result ≡ length self.now }
    {
        self.count
    }

    /// The word of this index, an empty one where the line has no such word.
    pub(crate) fn word(&self, place: usize) -> &'a [u8]
        ensures { result.now ≡ entry_at self.now place }
    {
        if place < self.count {
            return self.words[place];
        }
        b""
    }

    /// Whether this text is the word of this index.
    pub(crate) fn is_word(&self, place: usize, text: &[u8]) -> bool
        ensures { result ≡ is_word_of self.now place text.now }
    {
        self.word(place) == text
    }

    /// The number that the word of this index is.
    pub(crate) fn number_at(&self, place: usize) -> Option<u64>
        ensures { result ≡ number_in self.now place }
    {
        printed_number_of(self.word(place))
    }
}

/// Whether the word is one of the names.
pub(crate) fn is_known(names: &NameList, word: &[u8]) -> bool
    ensures { result ≡ is_known_word names.now word.now }
{
    names.position(word).is_some()
}

/// The name of a number, an empty one where it has none.
pub(crate) fn name_of(names: &NameList, number: usize) -> &[u8]
    ensures { result.now ≡ entry_at names.now number }
{
    if number < names.len() {
        return names.name(number).as_bytes();
    }
    b""
}
