ghost use Rattle.std.specs.Prelude.{◌≡◌, ◌<◌, ◌≤◌, ◌^◌, ◌∷◌, ◌++◌, ℕ, ℤ, pos, neg_ℤ, length, IfSome, IfNone, OnOk, OnErr, IsTrue, ◌↔◌, slice_index};
ghost use Rattle.std.specs.Fmt.{decimal, signed_decimal};
ghost use Rattle.std.specs.Str.Parse.{AllDigits, digits_value};
ghost use Rattle.ak_base.specs.Number.{IsIntText, OneIntText, PrintedIntsAreRead};
ghost use Rattle.ak_base.specs.Limits.{digits_limit};

use crate::bytes::Bytes;
use crate::no_memory::NoMemory;

/// The longest number that is read, in digits.
const DIGITS_LIMIT: usize = 20;

/// Adds the number in decimal: a `-` where it is below 0, then its digits without a leading zero.
/// An `Err` changes nothing. `NoMemory` where memory ran out.
pub fn print_int(number: i64, out: &mut Bytes) -> Result<(), NoMemory>
    ensures ok { OnOk result (out.new ≡ out.old ++ signed_decimal number) }
    ensures err { OnErr result (out.new ≡ out.old) }
{
    out.extend(number.to_string(out.allocator())?.as_bytes())
}

/// Adds the number in decimal, without a leading zero. An `Err` changes nothing. `NoMemory` where memory ran
/// out.
pub fn print_uint(number: u64, out: &mut Bytes) -> Result<(), NoMemory>
    ensures ok { OnOk result (out.new ≡ out.old ++ decimal number) }
    ensures err { OnErr result (out.new ≡ out.old) }
{
    out.extend(number.to_string(out.allocator())?.as_bytes())
}

/// The number that the bytes are the printed form of, in at most 20 digits. None where they are the form
/// of no number, as `+3`, `03`, `-0` and the empty text. Takes no memory.
pub fn read_int(bytes: &[u8]) -> Option<i128>
    ensures found { IfSome result (λ z. IsIntText bytes.now z) }
    ensures none { IfNone result ((z : ℤ) → IsIntText bytes.now z → ⊥) }
{
    let Some((first, rest)) = bytes.split_first() else {
        return None;
    };
    if *first == b'-' {
        read_below_zero(rest)
    } else {
        read_from_zero(bytes)
    }
}

// The number below 0 whose digits stand after the `-`.
fn read_below_zero(digits: &[u8]) -> Option<i128>
    ensures found { IfSome result (λ z. IsIntText (45 ∷ digits.now) z) }
    ensures none { IfNone result ((z : ℤ) → IsIntText (45 ∷ digits.now) z → ⊥) }
{
    let Some(n) = read_digits(digits) else {
        return None;
    };
    below_zero(n)
}

// The number that is this much below 0. There is no `-0`.
fn below_zero(n: u128) -> Option<i128>
    requires { n < 10 ^ digits_limit }
    ensures found { IfSome result (λ z. (0 < n) × (z ≡ neg_ℤ (pos n))) }
    ensures none { IfNone result (n ≡ 0) }
{
    if n == 0 { None } else { Some(-(n as i128)) }
}

fn read_from_zero(digits: &[u8]) -> Option<i128>
    ensures found { IfSome result (λ z. IsIntText digits.now z) }
    ensures none { IfNone result ((n : ℕ) → IsIntText digits.now (pos n) → ⊥) }
{
    Some(read_digits(digits)? as i128)
}

// The number that at most 20 digits without a leading zero write.
fn read_digits(b: &[u8]) -> Option<u128>
    ensures found { IfSome result (λ n. (b.now ≡ decimal n) × (length b.now ≤ digits_limit)) }
    ensures below { IfSome result (λ n. n < 10 ^ digits_limit) }
    ensures none { IfNone result ((n : ℕ) → b.now ≡ decimal n → length b.now ≤ digits_limit → ⊥) }
{
    if b.is_empty() || b.len() > DIGITS_LIMIT || has_leading_zero(b) {
        return None;
    }
    value_of_digits(b)
}

// A zero stands first, and more follows.
fn has_leading_zero(b: &[u8]) -> bool
    ensures { IsTrue result ↔ ((1 < length b.now) × (slice_index b.now 0 ≡ 48)) }
{
    b.len() > 1 && b[0] == b'0'
}

// The number that the digits write, leading zeros or not.
fn value_of_digits(b: &[u8]) -> Option<u128>
    requires { length b.now ≤ digits_limit }
    ensures found { IfSome result (λ n. AllDigits 10 b.now × (n ≡ digits_value 10 b.now)) }
    ensures below { IfSome result (λ n. n < 10 ^ digits_limit) }
    ensures none { IfNone result (¬ (AllDigits 10 b.now)) }
{
    let mut n = 0;
    for digit in b {
        if !digit.is_ascii_digit() {
            return None;
        }
        n = n * 10 + u128::from(*digit - b'0');
    }
    Some(n)
}

/// A text is read as one number.
pub fn one_int_text()
    ensures { OneIntText }
{}

/// Whatever `print_int` and `print_uint` add is read as the number that was printed.
pub fn printed_ints_are_read()
    ensures { PrintedIntsAreRead }
{}
