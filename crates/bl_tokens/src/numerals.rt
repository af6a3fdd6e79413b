//! Numbers in decimal digits.

ghost use Rattle.std.specs.Prelude.{◌≡◌, ◌+◌, ◌*◌, ◌<◌, ◌^◌, IsTrue};
ghost use Rattle.std.specs.List.{list_all};
ghost use Rattle.std.specs.Option.{SomeIff};
ghost use Rattle.std.specs.Str.Parse.{digits_value};
ghost use Rattle.bl_syntax.specs.Names.{is_digit};
ghost use Rattle.bl_tokens.specs.Numerals.{is_numeral, numeral_below};

/// One more digit after a number.
fn with_digit(value: u64, digit: u8) -> Option<u64>
    ensures { SomeIff result (value * 10 + digit < 2 ^ 64) (value * 10 + digit) }
{
    match value.checked_mul(10) {
        Some(tens) => tens.checked_add(u64::from(digit)),
        None => None,
    }
}

/// The number that the digits write, if it fits.
pub fn digits_value(digits: &[u8]) -> Option<u64>
    requires { IsTrue (list_all is_digit digits.now) }
    ensures { SomeIff result (digits_value 10 digits.now < 2 ^ 64) (digits_value 10 digits.now) }
{
    let mut value: u64 = 0;
    for byte in digits {
        match with_digit(value, *byte - b'0') {
            Some(more) => value = more,
            None => return None,
        }
    }
    Some(value)
}

fn is_numeral(digits: &[u8]) -> bool
    ensures { result ≡ is_numeral digits.now }
{
    1 <= digits.len() && (digits.len() == 1 || !(digits[0] == b'0'))
}

/// A number of 64 bits, without leading zeros.
pub fn long_numeral(digits: &[u8]) -> Option<u64>
    requires { IsTrue (list_all is_digit digits.now) }
    ensures { result ≡ numeral_below (2 ^ 64) digits.now }
{
    if is_numeral(digits) {
        digits_value(digits)
    } else {
        None
    }
}

/// A number of 32 bits, without leading zeros.
pub fn short_numeral(digits: &[u8]) -> Option<u32>
    requires { IsTrue (list_all is_digit digits.now) }
    ensures { result ≡ numeral_below (2 ^ 32) digits.now }
{
    if is_numeral(digits) {
        u32::try_from(digits_value(digits)?).ok()
    } else {
        None
    }
}

/// A number of 16 bits, without leading zeros.
pub fn smallest_numeral(digits: &[u8]) -> Option<u16>
    requires { IsTrue (list_all is_digit digits.now) }
    ensures { result ≡ numeral_below (2 ^ 16) digits.now }
{
    if is_numeral(digits) {
        u16::try_from(digits_value(digits)?).ok()
    } else {
        None
    }
}
