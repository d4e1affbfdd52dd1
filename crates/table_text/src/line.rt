//! Pieces of a line, put one behind another: a table may have two million lines, and each would
//! take longer by `write!`.

ghost use Rattle.std.specs.Prelude.{◌≡◌, ◌++◌, OnOk, codes, decimal, string_bytes};
ghost use Rattle.doc_names.specs.NameTexts.{entry_at};

use doc_names::NameList;
use itoa::Buffer;
use std::alloc::AllocError;

/// Puts a word and a number at the end of the text.
pub fn push_number(text: &mut String, word: &str, number: u64) -> Result<(), AllocError>
    ensures { OnOk result
        (string_bytes text.new ≡ string_bytes text.old ++ word.now ++ decimal number) }
{
    text.push_str(word)?;
    text.push_str(Buffer::new().format(number))
}

/// Puts a word, a number and the end of a line at the end of the text.
pub fn end_with_number(text: &mut String, word: &str, number: u64) -> Result<(), AllocError>
    ensures { OnOk result
        (string_bytes text.new
        ≡ string_bytes text.old ++ word.now ++ decimal number ++ codes "\n") }
{
    push_number(text, word, number)?;
    text.push_str("\n")
}

/// Puts a word and a name at the end of the text.
pub(crate) fn push_name(text: &mut String, word: &str, name: &str) -> Result<(), AllocError>
    ensures { OnOk result
        (string_bytes text.new ≡ string_bytes text.old ++ word.now ++ name.now) }
{
    text.push_str(word)?;
    text.push_str(name)
}

/// The name of the number, an empty text where it has none.
pub fn name_of(names: &NameList, number: u32) -> &str
    ensures { result.now ≡ entry_at names.now number }
{
    let number = number as usize;
    if number < names.len() {
        return names.name(number);
    }
    ""
}
