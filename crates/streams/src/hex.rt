//! Numbers in hexadecimal digits.
ghost use Rattle.std.specs.Prelude.{◌≡◌, ◌++◌, ◌^◌, ◌<◌, ◌≤◌, IfSome, OnOk, length};
ghost use Rattle.streams.specs.Hex.{digit, digit_value, hex, hex_value};

use std::alloc::AllocError;

/// The most digits of a number.
pub const MOST_DIGITS: usize = 32;

/// The digit of a value.
fn digit(value: u8) -> u8
    requires { value < 16 }
    ensures { result ≡ digit value }
{
    if value < 10 {
        b'0' + value
    } else {
        b'a' + (value - 10)
    }
}

/// The value of a digit, of either case.
pub fn digit_value(byte: u8) -> Option<u8>
    ensures value { result ≡ digit_value byte }
    ensures small { IfSome result (λ value. value < 16) }
{
    match byte {
        b'0'..=b'9' => Some(byte - b'0'),
        b'a'..=b'f' => Some(byte - b'a' + 10),
        b'A'..=b'F' => Some(byte - b'A' + 10),
        _ => None,
    }
}

/// So many digits of a number, made at the end of the array.
pub fn put_hex(digits: usize, number: u128, places: &mut [u8; MOST_DIGITS]) -> &[u8]
    requires { digits ≤ MOST_DIGITS }
    ensures { result.now ≡ hex digits number }
{
    let first = MOST_DIGITS - digits;
    let mut at = MOST_DIGITS;
    let mut rest = number;
    while at > first {
        at -= 1;
        places[at] = digit((rest % 16) as u8);
        rest /= 16;
    }
    &places[at..]
}

/// Writes the last so many hexadecimal digits of a number behind a text, in lower case, the high digit first. Leading zeros are
/// written.
pub fn push_hex(text: &mut Vec<u8>, digits: usize, number: u128) -> Result<(), AllocError>
    requires { digits ≤ MOST_DIGITS }
    ensures { OnOk result (text.new.items ≡ text.old.items ++ hex digits number) }
{
    let mut places = [0u8; MOST_DIGITS];
    text.extend_from_slice(put_hex(digits, number, &mut places))
}

/// The number of these hexadecimal digits, of either case; `None` exactly where one of the bytes is none.
pub fn hex_number(digits: &[u8]) -> Option<u128>
    requires { length digits.now ≤ MOST_DIGITS }
    ensures value { result ≡ hex_value digits.now }
    ensures small { IfSome result (λ number. number < 16 ^ length digits.now) }
{
    let mut number = 0u128;
    for byte in digits {
        number = number * 16 + u128::from(digit_value(*byte)?);
    }
    Some(number)
}
