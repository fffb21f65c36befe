// Numbers that a field writes in decimal digits.
ghost use Rattle.std.specs.Prelude.{◌≡◌, ℕ, ◌^◌, ◌<◌, true, List, Some, Option};
ghost use Rattle.fields.specs.Numbers.{digit_more, fits_u64, fits_i64, kept, read_on, number_of, signed_of, NumberBack, SignedBack};
ghost use Rattle.fields.specs.Printed.{number_read_back, signed_read_back};

use std::fmt::Display;

// A number that a field can write.
pub trait Numeral: Copy + Display {
    // The number that these bytes write, if it fits.
    ghost written: { List ℕ → Option Self };

    // Which numbers are values of the type: a law speaks of every number.
    ghost IsValue: { Self → Type 0 };

    fn read(field: &[u8]) -> Option<Self>
        ensures value { result ≡ written field.now };

    // What is printed of a number is read back.
    ghost read_back: { (n : Self) (text : List ℕ) → IsValue n → Self.output n ≡ Some text → written text ≡ Some n };
}

impl Numeral for u64 {
    ghost written = { number_of };

    ghost IsValue = { λ n. n < 2 ^ 64 };

    ghost read_back = { number_read_back };

    fn read(field: &[u8]) -> Option<u64>
        ensures value { result ≡ number_of field.now }
        ensures back { NumberBack field.now result }
    {
        if field.is_empty() {
            return None;
        }
        digits_read(field)
    }
}

impl Numeral for i64 {
    ghost written = { signed_of };

    ghost IsValue = { λ z. fits_i64 z ≡ true };

    ghost read_back = { signed_read_back };

    // Digits with a minus sign in front, or without one.
    fn read(field: &[u8]) -> Option<i64>
        ensures value { result ≡ signed_of field.now }
        ensures back { SignedBack field.now result }
    {
        match field {
            [b'-', digits @ ..] => narrowed(-i128::from(u64::read(digits)?)),
            _ => narrowed(i128::from(u64::read(field)?)),
        }
    }
}

// The number with one more digit behind it, if that fits.
fn with_digit(value: u64, byte: u8) -> Option<u64>
    ensures { result ≡ digit_more value byte }
{
    match byte {
        b'0'..=b'9' => value.checked_mul(10)?.checked_add(u64::from(byte - b'0')),
        _ => None,
    }
}

// The number of the digits, 0 where there is none, if it fits.
// Stays: digits of our own, not the library's `parse`: that takes a plus sign too.
fn digits_read(digits: &[u8]) -> Option<u64>
    ensures { result ≡ kept fits_u64 (read_on 0 digits.now) }
{
    let mut value = 0;
    for byte in digits {
        value = with_digit(value, *byte)?;
    }
    Some(value)
}

// The value, if it fits.
fn narrowed(value: i128) -> Option<i64>
    ensures { result ≡ kept fits_i64 (Some value) }
{
    i64::try_from(value).ok()
}
