//! Reading a line.

ghost use Rattle.std.specs.Prelude.{◌≡◌, ◌<◌, ◌≤◌, ◌^◌, ◌↔◌, [], length, IsTrue, IfOk, MatchBool};
ghost use Rattle.sat_base.specs.Clauses.{EachVariable};
ghost use Rattle.sat_base.specs.Derivation.{Line, IsAscending};
ghost use Rattle.sat_base.specs.Certificate.{line_text, HasForm};
ghost use Rattle.certificate_lines.specs.Items.{line_of};

use crate::items::{read_hints, read_literals};
use qc_base::{NoMemory, number_until};
use sat_base::Lit;

// Whether the literals ascend by variable.
fn ascends(lits: &[Lit]) -> bool
    requires { EachVariable (λ var. 1 ≤ var) lits.now }
    ensures { IsTrue result ↔ IsAscending lits.now }
{
    let mut above = 0;
    for &lit in lits {
        if lit.var() <= above {
            return false;
        }
        above = lit.var();
    }
    true
}

// Whether nothing is left, and there were hints.
fn is_end(rest: &[u8], hints: &[u64]) -> bool
    ensures { IsTrue result ↔ ((rest.now ≡ []) × (1 ≤ length hints.now)) }
{
    if !rest.is_empty() {
        return false;
    }
    !hints.is_empty()
}

/// Whether the bytes are a line of that number; its literals and hints.
pub fn read_line(
    bytes: &[u8],
    number: u64,
    vars: u32,
    lits: &mut Vec<Lit>,
    hints: &mut Vec<u64>,
) -> Result<bool, NoMemory>
    requires { vars < 2 ^ 31 }
    ensures { IfOk result (λ read. MatchBool read
        (HasForm vars number (line_of lits.new.items hints.new.items)
        × (bytes.now ≡ line_text number (line_of lits.new.items hints.new.items)))
        ((line : Line) → HasForm vars number line → bytes.now ≡ line_text number line → ⊥)) }
{
    let Some((found, words)) = number_until(bytes, b' ') else {
        return Ok(false);
    };
    if found != number {
        return Ok(false);
    }
    let Some(words) = read_literals(words, vars, lits)? else {
        return Ok(false);
    };
    if !ascends(lits) {
        return Ok(false);
    }
    let Some(rest) = read_hints(words, number, hints)? else {
        return Ok(false);
    };
    if is_end(rest, hints) {
        Ok(true)
    } else {
        Ok(false)
    }
}
