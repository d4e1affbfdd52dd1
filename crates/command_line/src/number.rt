//! Numbers in arguments: one to 20 ASCII digits, where leading zeros are allowed and a sign is not.
ghost use Rattle.std.specs.Prelude.{◌≡◌};
ghost use Rattle.command_line.specs.Lines.{number_in as number_from};

use text_scan::number_of;

// The number of the text, where it is one from `least` to `most`.
pub(crate) fn number_in(text: &str, least: u32, most: u32) -> Option<u32>
    ensures { result ≡ number_from least most text.now }
{
    let number = u32::try_from(any_number(text)?).ok()?;
    if number < least || most < number {
        return None;
    }
    Some(number)
}

// The number of the text, where it is one.
pub(crate) fn any_number(text: &str) -> Option<u64>
    ensures { result ≡ number_from 0 18446744073709551615 text.now }
{
    number_of(text.as_bytes())
}
