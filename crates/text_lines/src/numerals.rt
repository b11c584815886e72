// Numbers in decimal digits.
ghost use Rattle.std.specs.Prelude.{◌≡◌, ℕ, ◌<◌, ◌≤◌, ◌^◌, ◌++◌, List, length, slice_index, decimal, IsTrue, ◌↔◌, IfSome, IfNone, OnOk, OnErr};
ghost use Rattle.text_lines.specs.Numerals.{WritesNumber, IsNumeral};

use itoa::Buffer;
use std::alloc::AllocError;

/// The number that decimal digits write, zeros in front allowed. None where the bytes are no digits, or where the
/// number does not fit 64 bits.
pub fn digits_value(bytes: &[u8]) -> Option<u64>
    ensures found { IfSome result (λ n. WritesNumber bytes.now n) }
    ensures none { IfNone result ((n : ℕ) → n < 2 ^ 64 → ¬ WritesNumber bytes.now n) }
{
    if bytes.is_empty() {
        return None;
    }
    let mut n = 0u64;
    for byte in bytes {
        if !byte.is_ascii_digit() {
            return None;
        }
        let digit = u64::from(*byte - b'0');
        if n > (u64::MAX - digit) / 10 {
            return None;
        }
        n = n * 10 + digit;
    }
    Some(n)
}

// Whether a zero stands in front of other bytes.
fn has_leading_zero(bytes: &[u8]) -> bool
    ensures { IsTrue result ↔ ((1 < length bytes.now) × (slice_index bytes.now 0 ≡ 48)) }
{
    bytes.len() > 1 && bytes[0] == b'0'
}

/// The number, at most `most`, whose numeral the bytes are. None where they are the numeral of no such number.
pub fn read_numeral(bytes: &[u8], most: u64) -> Option<u64>
    ensures within { IfSome result (λ n. n ≤ most) }
    ensures found { IfSome result (λ n. bytes.now ≡ decimal n) }
    ensures none { IfNone result ((n : ℕ) → n ≤ most → ¬ (bytes.now ≡ decimal n)) }
{
    if has_leading_zero(bytes) {
        return None;
    }
    let n = digits_value(bytes)?;
    if n > most {
        return None;
    }
    Some(n)
}

/// Writes the numeral of a number at the end.
pub fn push_numeral(out: &mut Vec<u8>, n: u64) -> Result<(), AllocError>
    ensures ok { OnOk result (out.new.items ≡ out.old.items ++ decimal n) }
    ensures err { OnErr result (out.new.items ≡ out.old.items) }
{
    let mut buffer = Buffer::new();
    out.extend_from_slice(buffer.format(n).as_bytes())
}

/// Below 2^64 the numeral of a number is what `decimal` writes, so each number has one and each is of one number.
pub fn numerals_are_decimal()
    ensures { (bytes : List ℕ) (n : ℕ) → n < 2 ^ 64 → (IsNumeral bytes n ↔ (bytes ≡ decimal n)) }
{}

/// Digits write one number.
pub fn digits_write_one_number()
    ensures { (bytes : List ℕ) (m n : ℕ) → WritesNumber bytes m → WritesNumber bytes n → m ≡ n }
{}
