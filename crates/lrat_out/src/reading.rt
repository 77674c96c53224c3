//! Reading a line of LRAT.

ghost use Rattle.std.specs.Prelude.{◌≡◌, ◌<◌, ◌^◌, ◌++◌, ◌↔◌, map, All, IsTrue, IfOk, IfSome, IfNone, MatchBool};
ghost use Rattle.sat_base.specs.Literal.{negated};
ghost use Rattle.sat_base.specs.Clauses.{HasDistinctVariables};
ghost use Rattle.lrat_out.specs.Lines.{IsNumber, HasForm, proof_line_text};
ghost use Rattle.lrat_out.specs.Faults.{HasNoLine};
ghost use Rattle.lrat_out.specs.Proof.{proof_line_of};

use crate::proof::Proof;
use certificate_lines::{read_hints, read_literals};
use qc_base::{NoMemory, number_until};
use sat_base::{Lit, LitSet};

/// Makes the set the negations of the clause's literals, where no variable is in it twice; whether none is.
pub fn assume(trues: &mut LitSet, clause: &[Lit]) -> Result<bool, NoMemory>
    ensures { IfOk result (λ distinct. MatchBool distinct
        (HasDistinctVariables clause.now × (trues.new ≡ map negated clause.now))
        (HasDistinctVariables clause.now → ⊥)) }
{
    trues.clear();
    for &lit in clause {
        if trues.has(lit) {
            return Ok(false);
        }
        if trues.has(lit.negated()) {
            return Ok(false);
        }
        trues.insert(lit.negated())?;
    }
    Ok(true)
}

// Whether each hint is the number of a clause in hand.
fn all_named(proof: &Proof, hints: &[u64]) -> bool
    ensures { IsTrue result ↔ All (IsNumber proof.now) hints.now }
{
    for &hint in hints {
        let Some(_) = proof.clause_of(hint) else {
            return false;
        };
    }
    true
}

/// The number of the line that the bytes begin with, and what comes after it; its literals, their negations as the
/// set, and its hints.
pub fn read_line<'a>(
    bytes: &'a [u8],
    proof: &Proof,
    vars: u32,
    trues: &mut LitSet,
    lits: &mut Vec<Lit>,
    hints: &mut Vec<u64>,
) -> Result<Option<(u64, &'a [u8])>, NoMemory>
    requires { vars < 2 ^ 31 }
    ensures form { IfOk result (λ o. IfSome o (λ x.
        HasForm vars proof.now (proof_line_of x.0 lits.new.items hints.new.items))) }
    ensures text { IfOk result (λ o. IfSome o (λ x.
        bytes.now ≡ proof_line_text (proof_line_of x.0 lits.new.items hints.new.items) ++ x.1.now)) }
    ensures trues { IfOk result (λ o. IfSome o (λ x. trues.new ≡ map negated lits.new.items)) }
    ensures none { IfOk result (λ o. IfNone o (HasNoLine vars proof.now bytes.now)) }
{
    let Some((number, words)) = number_until(bytes, b' ') else {
        return Ok(None);
    };
    if number <= proof.last() {
        return Ok(None);
    }
    let Some(words) = read_literals(words, vars, lits)? else {
        return Ok(None);
    };
    let Some(rest) = read_hints(words, number, hints)? else {
        return Ok(None);
    };
    if !assume(trues, lits)? {
        return Ok(None);
    }
    if !all_named(proof, hints) {
        return Ok(None);
    }
    Ok(Some((number, rest)))
}
