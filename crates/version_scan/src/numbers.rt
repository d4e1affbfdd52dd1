//! The number of a token.

ghost use Rattle.std.specs.Prelude.{◌≡◌, ◌==◌, Some, IfSome, true, false, option_map, slice_index};
ghost use Rattle.serde_json.specs.Data.{unsigned as whole_of};
ghost use Rattle.serde_json.specs.Find.{as_u64};
ghost use Rattle.serde_json.specs.Read.{float_of, number_of, number_from};

use fast_float::{Numeral, parse_u64};

/// The number that digits alone write, of at most 64 bits. It takes no parts of a numeral, and `None`
/// says nothing.
pub fn whole_number(digits: &str) -> Option<u64>
    ensures { IfSome result (λ n. number_of digits.now ≡ Some (whole_of n)) }
{
    let bytes = digits.as_bytes();
    if has_plus(bytes) {
        return None;
    }
    match parse_u64(bytes) {
        Ok(number) => Some(number),
        Err(_) => None,
    }
}

// No number begins with a plus, which `parse_u64` lets pass.
fn has_plus(bytes: &[u8]) -> bool
    ensures { result ≡ (slice_index bytes.now 0 == 43) }
{
    !bytes.is_empty() && bytes[0] == b'+'
}

/// What a number token writes: `None` where it is above every float, and within, `None` where it is
/// no whole number of 64 bits without a sign.
pub fn number(digits: &str) -> Option<Option<u64>>
    ensures { result ≡ option_map as_u64 (number_of digits.now) }
{
    match whole_number(digits) {
        Some(number) => Some(Some(number)),
        None => any_number(digits),
    }
}

fn any_number(digits: &str) -> Option<Option<u64>>
    ensures { result ≡ option_map as_u64 (number_of digits.now) }
{
    let bytes = digits.as_bytes();
    if has_minus(bytes) {
        negative(&Numeral::scan(&bytes[1..]))
    } else {
        unsigned(&Numeral::scan(bytes))
    }
}

fn has_minus(bytes: &[u8]) -> bool
    ensures { result ≡ (slice_index bytes.now 0 == 45) }
{
    !bytes.is_empty() && bytes[0] == b'-'
}

fn unsigned(numeral: &Numeral<'_>) -> Option<Option<u64>>
    ensures { result ≡ option_map as_u64 (number_from false numeral.now) }
{
    match numeral.to_u64() {
        Some(number) => Some(Some(number)),
        None => nearest(false, numeral),
    }
}

fn negative(numeral: &Numeral<'_>) -> Option<Option<u64>>
    ensures { result ≡ option_map as_u64 (number_from true numeral.now) }
{
    if let Some(number) = numeral.to_i64(true) {
        if number < 0 {
            return Some(None);
        }
    }
    nearest(true, numeral)
}

fn nearest(sign: bool, numeral: &Numeral<'_>) -> Option<Option<u64>>
    ensures { result ≡ option_map as_u64 (float_of sign numeral.now) }
{
    if numeral.to_float::<f64>(sign).is_finite() {
        Some(None)
    } else {
        None
    }
}
