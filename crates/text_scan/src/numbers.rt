//! The numbers that digits are.

ghost use Rattle.std.specs.Prelude.{◌≡◌, ◌≤◌, true, IfSome};
ghost use Rattle.std.specs.Str.{all_ascii_digits};
ghost use Rattle.bwe_specs.specs.declared.limits.TheConstants.{MAX_AMOUNT};
ghost use Rattle.text_scan.specs.Numbers as spec;

use bwe_specs::MAX_AMOUNT;

/// Whether the text is one to 20 ASCII digits. Leading zeros are allowed, and so are numbers above
/// 64 bits.
pub fn is_number(text: &[u8]) -> bool
    ensures { result ≡ spec.is_number text.now }
{
    are_digits(text) && !text.is_empty() && text.len() <= 20
}

/// The number of one to 20 ASCII digits, `None` also where 64 bits do not hold it. Leading zeros
/// are allowed: `007` is 7.
#[tactic(auto, unfolding(crate::specs::Numbers::number_of))]
pub fn number_of(text: &[u8]) -> Option<u64>
    ensures { result ≡ spec.number_of text.now }
{
    if !is_number(text) {
        return None;
    }
    number_of_digits(text)
}

/// The number of a text as numbers are printed: digits without leading zeros, at most
/// 18,446,744,073,709,551,615. `None` for other texts, as `007`.
#[tactic(auto, unfolding(crate::specs::Numbers::printed_number_of))]
pub fn printed_number_of(text: &[u8]) -> Option<u64>
    ensures { result ≡ spec.printed_number_of text.now }
{
    if text.len() > 1 && text[0] == b'0' {
        return None;
    }
    number_of(text)
}

/// The number as an amount in kb/s, `None` where it is above `MAX_AMOUNT`.
pub fn amount_in_range(number: u64) -> Option<u64>
    ensures exact { result ≡ spec.amount_in_range number }
    ensures range { IfSome result (λ amount. amount ≤ MAX_AMOUNT) }
{
    if number > MAX_AMOUNT {
        return None;
    }
    Some(number)
}

fn are_digits(text: &[u8]) -> bool
    ensures { result ≡ all_ascii_digits text.now }
{
    text.iter().all(|byte| byte.is_ascii_digit())
}

fn number_of_digits(digits: &[u8]) -> Option<u64>
    requires { spec.is_number digits.now ≡ true }
    ensures { result ≡ spec.number_of digits.now }
{
    match std::str::from_utf8(digits) {
        Ok(text) => match text.parse::<u64>() {
            Ok(number) => Some(number),
            Err(_) => None,
        },
        Err(_) => None,
    }
}
