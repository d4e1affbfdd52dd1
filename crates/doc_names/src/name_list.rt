//! Names in one text.

ghost use Rattle.std.specs.Prelude.{◌≡◌, ◌+◌, ◌<◌, ◌∷◌, ◌++◌, [], IfOk, OnErr, OnOk, length, position, slice_index_or, string_bytes};
ghost use Rattle.std.specs.Str.{bytes_eq};
ghost use Rattle.doc_names.specs.NameList.{start_in};

use std::alloc::{AllocError, Global};
use std::marker::Model;

/// Names one behind another in one text, and where each ends. Contracts see the list of them.
///
/// A name takes its bytes and four more, and no piece of memory of its own.
#[derive(Debug, Drop)]
pub struct NameList {
    text: String,
    ends: Vec<u32>,
}

impl Model for NameList {
    ghost use Rattle.std.specs.Prelude.{ℕ, List, string_bytes};
    ghost use Rattle.doc_names.specs.NameList.{AreEnds, names_from};

    ghost Value = { List (List ℕ) };

    ghost view = { λ list. names_from (string_bytes list.text) 0 list.ends.items };

    ghost invariant = { λ list. AreEnds (string_bytes list.text) 0 list.ends.items };
}

impl NameList {
    /// A list without a name.
    pub fn new(alloc: Global) -> NameList
        ensures { result ≡ [] }
    {
        NameList {
            text: String::new(alloc),
            ends: Vec::new(alloc),
        }
    }

    /// A list without a name, with room for the ends of so many.
    pub fn with_room(alloc: Global, names: usize) -> Result<NameList, AllocError>
        ensures { IfOk result (λ list. list ≡ []) }
    {
        let ends = Vec::with_capacity(alloc, names)?;
        Ok(NameList {
            text: String::new(alloc),
            ends,
        })
    }

    /// How many names there are.
    pub fn len(&self) -> usize
        ensures { result ≡ length self.now }
    {
        self.ends.len()
    }

    /// Adds a name at the end. All names together have less than 4 GiB; more is out of memory.
    pub fn push(&mut self, name: &str) -> Result<(), AllocError>
        ensures ok { OnOk result (self.new ≡ self.old ++ name.now ∷ []) }
        ensures err { OnErr result (self.new ≡ self.old) }
    {
        push_name(&mut self.text, &mut self.ends, name)
    }

    /// The name of this number.
    pub fn name(&self, number: usize) -> &str
        requires { number < length self.now }
        ensures { result.now ≡ slice_index_or self.now number [] }
    {
        let start = start_of(&self.ends, number);
        let end = self.ends[number] as usize;
        &self.text.as_str()[start..end]
    }

    /// The number of the first name with these bytes. Takes a look at each name before it.
    pub fn position(&self, name: &[u8]) -> Option<usize>
        ensures { result ≡ position (bytes_eq name.now) self.now }
    {
        for number in 0..self.len() {
            if name == self.name(number).as_bytes() {
                return Some(number);
            }
        }
        None
    }
}

// Where the name of a number starts: where the one before it ends.
fn start_of(ends: &[u32], number: usize) -> usize
    requires { number < length ends.now }
    ensures { result ≡ start_in 0 ends.now number }
{
    if number == 0 {
        return 0;
    }
    ends[number - 1] as usize
}

// Puts a name behind a text, and its end behind the ends, or neither.
fn push_name(text: &mut String, ends: &mut Vec<u32>, name: &str) -> Result<(), AllocError>
    ensures text { OnOk result (string_bytes text.new ≡ string_bytes text.old ++ name.now) }
    ensures ends { OnOk result
        (ends.new.items ≡ ends.old.items ++ length (string_bytes text.new) ∷ []) }
    ensures same_text { OnErr result (string_bytes text.new ≡ string_bytes text.old) }
    ensures same_ends { OnErr result (ends.new.items ≡ ends.old.items) }
{
    let Ok(end) = u32::try_from(text.len() + name.len()) else {
        return Err(AllocError);
    };
    ends.push(end)?;
    if let Err(error) = text.push_str(name) {
        ends.pop();
        return Err(error);
    }
    Ok(())
}
