//! Reading the words of a line.

ghost use Rattle.std.specs.Prelude.{◌≡◌, ℕ, ◌<◌, ◌≤◌, ◌^◌, ◌++◌, Bool, List, Option, IfOk, IfSome, IsSomeAnd, codes, decimal};
ghost use Rattle.sat_base.specs.Literal.{Literal};
ghost use Rattle.sat_base.specs.Certificate.{literals_text, hints_text};
ghost use Rattle.certificate_lines.specs.Items.{sign_text, literal_word, MayStand, hint_word, MayHint, AreWithin, AreHints};

use qc_base::{NoMemory, number_until, small_number_until, strip_prefix};
use sat_base::Lit;

// Whether no sign is in front, and what comes after it.
fn unsigned(bytes: &[u8]) -> (bool, &[u8])
    ensures parts { bytes.now ≡ sign_text result.0 ++ result.1.now }
    ensures only { (positive : Bool) (number : ℕ) (rest : List ℕ) → 0 < number → number < 2 ^ 64
        → bytes.now ≡ sign_text positive ++ (decimal number ++ rest)
        → (result.0 ≡ positive) × (result.1.now ≡ decimal number ++ rest) }
{
    match strip_prefix(bytes, b"-") {
        Some(digits) => (false, digits),
        None => (true, bytes),
    }
}

// The next literal, or that none comes, and what comes after its space.
fn read_literal(bytes: &[u8], vars: u32) -> Option<(Option<Lit>, &[u8])>
    requires { vars < 2 ^ 31 }
    ensures found { IfSome result (λ x. bytes.now ≡ literal_word x.0 ++ x.1.now) }
    ensures may { IfSome result (λ x. MayStand vars x.0) }
    ensures only { (item : Option Literal) (rest : List ℕ) → MayStand vars item
        → bytes.now ≡ literal_word item ++ rest → IsSomeAnd result (λ x. (x.0 ≡ item) × (x.1.now ≡ rest)) }
{
    if let Some(rest) = strip_prefix(bytes, b"0 ") {
        return Some((None, rest));
    }
    let (positive, digits) = unsigned(bytes);
    let (var, rest) = small_number_until(digits, b' ')?;
    if 1 <= var && var <= vars {
        Some((Some(Lit::new(var, positive)), rest))
    } else {
        None
    }
}

// The next hint, or that none comes, and what comes after it.
fn read_hint(bytes: &[u8], number: u64) -> Option<(Option<u64>, &[u8])>
    ensures found { IfSome result (λ x. bytes.now ≡ hint_word x.0 ++ x.1.now) }
    ensures may { IfSome result (λ x. MayHint number x.0) }
    ensures only { (item : Option ℕ) (rest : List ℕ) → MayHint number item
        → bytes.now ≡ hint_word item ++ rest → IsSomeAnd result (λ x. (x.0 ≡ item) × (x.1.now ≡ rest)) }
{
    if let Some(rest) = strip_prefix(bytes, b"0\n") {
        return Some((None, rest));
    }
    let (hint, rest) = number_until(bytes, b' ')?;
    if 1 <= hint && hint < number {
        Some((Some(hint), rest))
    } else {
        None
    }
}

/// Reads literals, in any order, up to the 0 after them, and answers what comes after that.
pub fn read_literals<'a>(
    bytes: &'a [u8],
    vars: u32,
    lits: &mut Vec<Lit>,
) -> Result<Option<&'a [u8]>, NoMemory>
    requires { vars < 2 ^ 31 }
    ensures found { IfOk result (λ o. IfSome o (λ rest.
        AreWithin vars lits.new.items × (bytes.now ≡ literals_text lits.new.items ++ codes "0 " ++ rest.now))) }
    ensures only { IfOk result (λ o. (clause : List Literal) (rest : List ℕ) → AreWithin vars clause
        → bytes.now ≡ literals_text clause ++ codes "0 " ++ rest
        → IsSomeAnd o (λ x. (lits.new.items ≡ clause) × (x.now ≡ rest))) }
{
    lits.clear();
    let mut rest = bytes;
    loop {
        let Some((item, after)) = read_literal(rest, vars) else {
            return Ok(None);
        };
        rest = after;
        let Some(lit) = item else {
            return Ok(Some(rest));
        };
        lits.push(lit)?;
    }
}

/// Reads hints up to the 0 that ends the line, and answers what comes after it.
pub fn read_hints<'a>(
    bytes: &'a [u8],
    number: u64,
    hints: &mut Vec<u64>,
) -> Result<Option<&'a [u8]>, NoMemory>
    ensures found { IfOk result (λ o. IfSome o (λ rest.
        AreHints number hints.new.items
        × (bytes.now ≡ hints_text hints.new.items ++ codes "0\n" ++ rest.now))) }
    ensures only { IfOk result (λ o. (others : List ℕ) (rest : List ℕ) → AreHints number others
        → bytes.now ≡ hints_text others ++ codes "0\n" ++ rest
        → IsSomeAnd o (λ x. (hints.new.items ≡ others) × (x.now ≡ rest))) }
{
    hints.clear();
    let mut rest = bytes;
    loop {
        let Some((item, after)) = read_hint(rest, number) else {
            return Ok(None);
        };
        rest = after;
        let Some(hint) = item else {
            return Ok(Some(rest));
        };
        hints.push(hint)?;
    }
}
