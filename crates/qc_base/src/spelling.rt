//! Texts that have one spelling, read and written: what comes after a text, words, and numbers.

ghost use Rattle.std.specs.Prelude.{◌≡◌, ℕ, ◌==◌, position, ◌<◌, ◌^◌, ◌++◌, ◌∷◌, List, IfSome, IsSomeAnd, OnOk, OnErr, decimal};
ghost use Rattle.qc_base.specs.Spelling.{IsSign, IsFree};

use crate::ids::NoMemory;
use itoa::Buffer;

/// What comes after the text, where the bytes begin with it.
pub fn strip_prefix<'a>(bytes: &'a [u8], text: &[u8]) -> Option<&'a [u8]>
    ensures found { IfSome result (λ rest. bytes.now ≡ text.now ++ rest.now) }
    ensures only { (rest : List ℕ) → bytes.now ≡ text.now ++ rest → IsSomeAnd result (λ x. x.now ≡ rest) }
{
    bytes.strip_prefix(text)
}

// Where the first such sign is.
fn place_of(bytes: &[u8], sign: u8) -> Option<usize>
    ensures { result ≡ position (λ byte. byte == sign) bytes.now }
{
    bytes.iter().position(|byte| *byte == sign)
}

/// The word before the first such sign, and what comes after the sign.
pub fn split_once(bytes: &[u8], sign: u8) -> Option<(&[u8], &[u8])>
    ensures found { IfSome result (λ x. bytes.now ≡ x.0.now ++ sign ∷ x.1.now) }
    ensures free { IfSome result (λ x. IsFree sign x.0.now) }
    ensures only { (word rest : List ℕ) → IsFree sign word → bytes.now ≡ word ++ sign ∷ rest
        → IsSomeAnd result (λ x. (x.0.now ≡ word) × (x.1.now ≡ rest)) }
{
    let end = place_of(bytes, sign)?;
    Some((&bytes[..end], &bytes[end + 1..]))
}

// The number that these bytes may be.
fn parsed(digits: &[u8]) -> Option<u64>
    ensures only { (number : ℕ) → number < 2 ^ 64 → digits.now ≡ decimal number → result ≡ Some number }
{
    match str::from_utf8(digits) {
        Ok(text) => text.parse::<u64>().ok(),
        Err(_) => None,
    }
}

/// The number that these bytes are, decimal and without leading zeros.
pub fn number_of(digits: &[u8]) -> Option<u64>
    ensures found { IfSome result (λ number. digits.now ≡ decimal number) }
    ensures fits { IfSome result (λ number. number < 2 ^ 64) }
    ensures only { (number : ℕ) → number < 2 ^ 64 → digits.now ≡ decimal number → result ≡ Some number }
{
    let number = parsed(digits)?;
    let mut buffer = Buffer::new();
    if buffer.format(number).as_bytes() == digits {
        Some(number)
    } else {
        None
    }
}

/// Appends a number in that spelling.
pub fn push_number(out: &mut Vec<u8>, number: u64) -> Result<(), NoMemory>
    ensures ok { OnOk result (out.new.items ≡ out.old.items ++ decimal number) }
    ensures err { OnErr result (out.new.items ≡ out.old.items) }
{
    let mut buffer = Buffer::new();
    out.extend_from_slice(buffer.format(number).as_bytes())?;
    Ok(())
}

/// The number before the first such sign, decimal and without leading zeros, and what comes after the sign.
pub fn number_until(bytes: &[u8], sign: u8) -> Option<(u64, &[u8])>
    requires { IsSign sign }
    ensures found { IfSome result (λ x. bytes.now ≡ decimal x.0 ++ sign ∷ x.1.now) }
    ensures only { (number : ℕ) (rest : List ℕ) → number < 2 ^ 64 → bytes.now ≡ decimal number ++ sign ∷ rest
        → IsSomeAnd result (λ x. (x.0 ≡ number) × (x.1.now ≡ rest)) }
{
    let (digits, rest) = split_once(bytes, sign)?;
    let number = number_of(digits)?;
    Some((number, rest))
}

/// The same for a number of 32 bits.
pub fn small_number_until(bytes: &[u8], sign: u8) -> Option<(u32, &[u8])>
    requires { IsSign sign }
    ensures found { IfSome result (λ x. bytes.now ≡ decimal x.0 ++ sign ∷ x.1.now) }
    ensures only { (number : ℕ) (rest : List ℕ) → number < 2 ^ 32 → bytes.now ≡ decimal number ++ sign ∷ rest
        → IsSomeAnd result (λ x. (x.0 ≡ number) × (x.1.now ≡ rest)) }
{
    let (number, rest) = number_until(bytes, sign)?;
    let small = u32::try_from(number).ok()?;
    Some((small, rest))
}
