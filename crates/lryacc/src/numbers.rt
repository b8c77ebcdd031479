//! The numbers that a file has.

ghost use Rattle.std.specs.Prelude.{◌≡◌, ◌<◌, ◌≤◌, ◌^◌, All, IfSome, IsSome};
ghost use Rattle.std.specs.Char.{IsAsciiDigit, digit_value};
ghost use Rattle.std.specs.Str.Parse.{digits_value};
ghost use Rattle.lryacc.specs.EndTokens.{IsSmallDecimal, written_number};

/// The value of a hexadecimal digit.
fn value_of_digit(byte: u8) -> Option<u64>
    ensures value { IfSome result (λ value. value ≡ digit_value byte) }
    ensures decimal { IsAsciiDigit byte → IsSome result }
{
    match byte {
        b'0'..=b'9' => Some(u64::from(byte - b'0')),
        b'a'..=b'f' => Some(u64::from(byte - b'a') + 10),
        b'A'..=b'F' => Some(u64::from(byte - b'A') + 10),
        _ => None,
    }
}

/// The number that digits mean in a base; None where it is too large.
fn value_in(base: u64, digits: &[u8]) -> Option<u64>
    ensures value { IfSome result (λ value. value ≡ digits_value base digits.now) }
    ensures decimal { 1 ≤ base → All IsAsciiDigit digits.now
        → digits_value base digits.now < 2 ^ 64 → IsSome result }
{
    let mut value: u64 = 0;
    for digit in digits {
        value = value
            .checked_mul(base)?
            .checked_add(value_of_digit(*digit)?)?;
    }
    Some(value)
}

/// The number that is written so, where it is at most the greatest `i32`.
pub(crate) fn value_of(bytes: &[u8]) -> Option<u64>
    ensures value { IfSome result (λ value. value ≡ written_number bytes.now) }
    ensures decimal { IsSmallDecimal bytes.now → IsSome result }
{
    let value = match bytes {
        [b'0', b'x' | b'X', digits @ ..] => value_in(16, digits)?,
        _ => value_in(10, bytes)?,
    };
    if value <= 2_147_483_647 {
        Some(value)
    } else {
        None
    }
}
