//! Where the document lies in an input of two parts.
//!
//! The commands that read a document and a second part ask `find_parts` before anything else, and
//! read the document from `start` to before `end` and the second part from `end` on. `exact` says
//! which answer comes; `found` and `complete` say that it is the one of the format's sentence
//! (`specs/TwoPart.antt`). It takes no memory. Nothing is promised of what the two parts hold.
#![tactic(auto)]

ghost use Rattle.std.specs.Prelude.{◌≡◌, ◌==◌, List, ℕ, length, drop, position, Some, IfSome};
ghost use Rattle.two_part.specs.TwoPart.{AreParts, IsTwoPart, document_in, parts_behind, parts_of};

use text_scan::number_of;

/// The row for an input without parts.
pub const NO_PARTS: &str = "refused 14 parts\n";

/// Where the document lies, in bytes from the start of the input. The second part is what follows
/// `end`.
#[derive(Clone, Copy, Debug, PartialEq, Eq, Drop)]
pub struct Parts {
    pub start: u64,
    pub end: u64,
}

impl Parts {
    /// The document among the bytes in which these parts were found.
    pub fn document<'a>(&self, bytes: &'a [u8]) -> &'a [u8]
        requires { AreParts bytes.now self.now }
        ensures { result.now ≡ document_in bytes.now self.now }
    {
        let front = &bytes[..self.end as usize];
        &front[self.start as usize..]
    }

    /// The second part: what stands behind the document.
    pub fn second<'a>(&self, bytes: &'a [u8]) -> &'a [u8]
        requires { AreParts bytes.now self.now }
        ensures { result.now ≡ drop self.now.end bytes.now }
    {
        &bytes[self.end as usize..]
    }
}

/// The parts of the bytes ("Two-part inputs", docs/FORMAT.md), `None` where they do not begin so.
///
/// Leading zeros are allowed. A number that no 64 bits hold is more than the bytes that follow. Of
/// `2`, a line feed and `{}rest` the document lies from 2 to before 4, and `rest` stands behind it.
pub fn find_parts(bytes: &[u8]) -> Option<Parts>
    ensures exact { result ≡ parts_of bytes.now }
    // The document lies where the bytes say.
    ensures found { IfSome result (AreParts bytes.now) }
    // The parts of every two-part input are found.
    ensures complete { (digits document rest : List ℕ) → IsTwoPart bytes.now digits document rest
        → result ≡ Some (parts_behind digits (length document)) }
{
    let line_feed = first_line_feed(bytes)?;
    let number = number_of(&bytes[..line_feed])?;
    let start = line_feed as u64 + 1;
    if number > bytes.len() as u64 - start {
        return None;
    }
    Some(Parts {
        start,
        end: start + number,
    })
}

/// The index of the first line feed.
pub fn first_line_feed(bytes: &[u8]) -> Option<usize>
    ensures { result ≡ position (λ byte. byte == 10) bytes.now }
{
    bytes.iter().position(|byte| *byte == b'\n')
}
