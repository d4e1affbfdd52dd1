//! What a document is made from, and what is drawn and named from that.

ghost use Rattle.std.specs.Prelude.{◌≡◌, ◌∷◌, [], IfOk, IfSome, string_bytes};
ghost use Rattle.json.specs.Token.{string};
ghost use Rattle.doc_maker.specs.Made.{drawn, numbered as numbered_text};
ghost use Rattle.doc_maker.specs.Writing.{Adds};

use arrayvec::ArrayString;
use itoa::Buffer;
use json::Writer;
use std::alloc::{AllocError, Global};
use std::marker::Model;

// As many bytes as a name that is put together on the stack may have.
const SHORT: usize = 16;

/// The three numbers of a made document, in their ranges.
#[derive(Drop)]
pub(crate) struct DocumentSize {
    seed: u64,
    groups: u32,
    tasks: u32,
}

impl Model for DocumentSize {
    ghost use Rattle.doc_maker.specs.Made.{Size, IsSize};

    ghost Value = { Size };

    ghost view = { λ size. record { seed = size.seed; groups = size.groups; tasks = size.tasks } };

    ghost invariant = { λ size.
        IsSize (record { seed = size.seed; groups = size.groups; tasks = size.tasks }) };
}

impl DocumentSize {
    ghost use Rattle.doc_maker.specs.Made.{IsSize};

    pub(crate) fn new(seed: u64, groups: u32, tasks: u32) -> DocumentSize
        requires { IsSize (record { seed = seed; groups = groups; tasks = tasks }) }
        ensures { result ≡ record { seed = seed; groups = groups; tasks = tasks } }
    {
        DocumentSize {
            seed,
            groups,
            tasks,
        }
    }

    /// How many groups and links there are.
    pub(crate) fn groups(&self) -> u32
        ensures groups { result ≡ self.now.groups }
        ensures in_range { IsSize self.now }
    {
        self.groups
    }

    /// How many tasks there are.
    pub(crate) fn tasks(&self) -> u32
        ensures tasks { result ≡ self.now.tasks }
        ensures in_range { IsSize self.now }
    {
        self.tasks
    }

    /// The number that is drawn at an index, below 10,007.
    pub(crate) fn drawn(&self, place: u32) -> u64
        ensures { result ≡ drawn self.now place }
    {
        ((self.seed % 1_000_003) * 7_919 + u64::from(place) * 104_729) % 10_007
    }
}

/// Writes the text of a letter and a number.
pub(crate) fn write_numbered(
    alloc: Global,
    out: &mut Writer,
    letter: &str,
    number: u32,
) -> Result<(), AllocError>
    ensures { Adds result out.old out.new (string (numbered_text letter.now number) ∷ []) }
{
    if let Some(name) = short_name(letter, number) {
        return out.string(name.as_str());
    }
    let name = numbered(alloc, letter, number)?;
    out.string(&name)
}

// A letter and a number, in memory of its own.
fn numbered(alloc: Global, letter: &str, number: u32) -> Result<String, AllocError>
    ensures { IfOk result (λ name. string_bytes name ≡ numbered_text letter.now number) }
{
    format!(in alloc; "{letter}{number}")
}

// The same without memory of its own, where it is short, as all names of a made document are.
fn short_name(letter: &str, number: u32) -> Option<ArrayString<SHORT>>
    ensures { IfSome result (λ name. name.bytes ≡ numbered_text letter.now number) }
{
    let mut digits = Buffer::new();
    let mut name = ArrayString::new();
    name.try_push_str(letter).ok()?;
    name.try_push_str(digits.format(number)).ok()?;
    Some(name)
}
