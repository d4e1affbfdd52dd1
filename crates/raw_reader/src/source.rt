//! The tokens of a text, whose strings live as long as what is read of them.

ghost use Rattle.std.specs.Prelude.{◌≡◌, ◌<◌, ◌∷◌, [], length, Some, None, MatchOption, MatchResult, IfSome, OnSome, option_map};
ghost use Rattle.std.specs.Bool.{MatchBool};
ghost use Rattle.json.specs.Json.{after_end_array, read_key};
ghost use Rattle.json.specs.Lex.{tokens};
ghost use Rattle.json.specs.Reads.{token_of};
ghost use Rattle.json.specs.Token.{string};

use json::{Invalid, Reader, Scratch, Token};
use std::marker::Model;

// A reader whose scratch is lent to other texts later, so that its strings do not last.
#[derive(Drop)]
struct Passing<'t, 's> {
    text: &'t str,
    reader: Reader<'s>,
}

// Who lends the strings that are handed out: text and scratch, which last as long, or the text
// alone.
#[derive(Drop)]
enum Strings<'t, 's> {
    Lasting(Reader<'t>),
    Passing(Passing<'t, 's>),
}

/// A clause sees the tokens that are still to come, as of a `Reader`.
#[derive(Drop)]
pub struct Source<'t: 's, 's> {
    strings: Strings<'t, 's>,
}

impl<'t: 's, 's> Model for Source<'t, 's> {
    ghost use Rattle.std.specs.Prelude.{List};
    ghost use Rattle.json.specs.Token.{Token as SpecToken, tokens_code};

    ghost Value = { List SpecToken };

    ghost coded = { tokens_code };

    ghost use Rattle.raw_reader.specs.Source.{tokens_left};

    ghost view = { λ a. tokens_left a.strings };
}

// What was found at a place, lent by the text, where the same stands there.
#[inline(always)]
fn lent<'t>(text: &'t str, begin: usize, found: &str) -> Option<&'t str>
    ensures { IfSome result (λ s. s.now ≡ found.now) }
{
    let end = begin.checked_add(found.len())?;
    let same = text.get(begin..end)?;
    if same == found { Some(same) } else { None }
}

impl<'t, 's> Passing<'t, 's> {
    // Takes a text, and finds it in the whole one behind the quote where the token begins.
    #[inline(always)]
    fn text(&mut self) -> Option<&'t str>
        ensures { IfSome result (λ s. self.old.reader ≡ string s.now ∷ self.new.reader) }
    {
        let begin = self.reader.offset().checked_add(1)?;
        match self.reader.next()? {
            Token::String(found) => lent(self.text, begin, found),
            _ => None,
        }
    }
}

impl<'t: 's, 's> Source<'t, 's> {
    /// The tokens of a text, of which each string can be handed out.
    pub fn lasting(text: &'t str, scratch: &'t mut Scratch) -> Option<Source<'t, 's>>
        ensures { IfSome result (λ source. source ≡ tokens text.now) }
    {
        let reader = Reader::new(text, scratch).ok()?;
        Some(Source {
            strings: Strings::Lasting(reader),
        })
    }

    /// The same where the scratch is lent to other texts later. A string with escapes is not handed
    /// out.
    pub fn passing(text: &'t str, scratch: &'s mut Scratch) -> Option<Source<'t, 's>>
        ensures { IfSome result (λ source. source ≡ tokens text.now) }
    {
        let reader = Reader::new(text, scratch).ok()?;
        Some(Source {
            strings: Strings::Passing(Passing { text, reader }),
        })
    }

    #[inline(always)]
    pub fn next(&mut self) -> Option<Token<'s>>
        ensures value { MatchOption result ((self.old ≡ []) × (self.new ≡ []))
            (λ t. self.old ≡ token_of t ∷ self.new) }
    {
        match &mut self.strings {
            Strings::Lasting(reader) => reader.next(),
            Strings::Passing(passing) => passing.reader.next(),
        }
    }

    /// Takes a text.
    #[inline(always)]
    pub fn text(&mut self) -> Option<&'t str>
        ensures { IfSome result (λ s. self.old ≡ string s.now ∷ self.new) }
    {
        match &mut self.strings {
            Strings::Lasting(reader) => match reader.next()? {
                Token::String(text) => Some(text),
                _ => None,
            },
            Strings::Passing(passing) => passing.text(),
        }
    }

    /// A key, or `None` at the brace that closes an object.
    #[inline(always)]
    pub fn next_key(&mut self) -> Result<Option<&'s str>, Invalid>
        ensures { MatchResult result
            (λ k. read_key self.old ≡ Some (option_map (λ s. s.now) k, self.new))
            (λ _. read_key self.old ≡ None) }
    {
        match &mut self.strings {
            Strings::Lasting(reader) => reader.next_key(),
            Strings::Passing(passing) => passing.reader.next_key(),
        }
    }

    /// Takes the bracket that closes an array, if it is next.
    #[inline(always)]
    pub fn take_end_array(&mut self) -> bool
        ensures { MatchBool result (after_end_array self.old ≡ Some self.new)
            ((after_end_array self.old ≡ None) × (self.new ≡ self.old)) }
    {
        match &mut self.strings {
            Strings::Lasting(reader) => reader.take_end_array(),
            Strings::Passing(passing) => passing.reader.take_end_array(),
        }
    }

    /// Passes over a value, in which arrays and objects may nest `depth` deep.
    pub fn skip_value(&mut self, depth: usize) -> Option<()>
        ensures { OnSome result (length self.new < length self.old) }
    {
        match &mut self.strings {
            Strings::Lasting(reader) => reader.skip_value(depth).ok(),
            Strings::Passing(passing) => passing.reader.skip_value(depth).ok(),
        }
    }
}
