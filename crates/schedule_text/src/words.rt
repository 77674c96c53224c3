//! The words of a line.

ghost use Rattle.std.specs.Prelude.{◌≡◌, ℕ, ◌<◌, ◌^◌, ◌++◌, ◌∷◌, List, Some, IfSome, IsSomeAnd, length, codes, decimal};
ghost use Rattle.qc_base.specs.declared.ids.End.{End as AnEnd};
ghost use Rattle.qc_base.specs.declared.ids.Qubit.{Qubit as AQubit};
ghost use Rattle.qc_base.specs.Spelling.{IsFree};
ghost use Rattle.circuit_core.specs.Circuit.{IsCircuit, qubit_count};
ghost use Rattle.circuit_core.specs.Label.{label};
ghost use Rattle.trap_model.specs.Trap.{place_count, place_text};
ghost use Rattle.trap_parts.specs.Build.{IsTrap};
ghost use Rattle.schedule_text.specs.Text.{at, end_text};
ghost use Rattle.schedule_text.specs.Progress.{IsGap};
ghost use Rattle.schedule_text.specs.Words.{EndsWord};

use circuit_core::Circuit;
use qc_base::{End, JunctionId, PlaceId, Qubit, number_until, split_once, strip_prefix};
use trap_model::Trap;

/// A place before the sign, a space or a line end, and what comes after the sign.
pub fn place_until<'a>(trap: &Trap, bytes: &'a [u8], sign: u8) -> Option<(PlaceId, &'a [u8])>
    requires trap { IsTrap trap.now }
    requires gap { IsGap sign }
    ensures found { IfSome result (λ x. bytes.now ≡ place_text trap.now x.0.0 ++ sign ∷ x.1.now) }
    ensures there { IfSome result (λ x. x.0.0 < place_count trap.now) }
    ensures only { (place : ℕ) (rest : List ℕ) → place < place_count trap.now
        → bytes.now ≡ place_text trap.now place ++ sign ∷ rest
        → IsSomeAnd result (λ x. (x.0.0 ≡ place) × (x.1.now ≡ rest)) }
{
    let (word, rest) = split_once(bytes, sign)?;
    let place = trap.place_named(word)?;
    Some((place, rest))
}

/// A junction before the sign, a space or a line end, and what comes after the sign.
pub fn junction_until<'a>(trap: &Trap, bytes: &'a [u8], sign: u8) -> Option<(JunctionId, &'a [u8])>
    requires trap { IsTrap trap.now }
    requires gap { IsGap sign }
    ensures found { IfSome result
        (λ x. bytes.now ≡ at (λ name. name) trap.now.junctions x.0.0 ++ sign ∷ x.1.now) }
    ensures there { IfSome result (λ x. x.0.0 < length trap.now.junctions) }
    ensures only { (junction : ℕ) (rest : List ℕ) → junction < length trap.now.junctions
        → bytes.now ≡ at (λ name. name) trap.now.junctions junction ++ sign ∷ rest
        → IsSomeAnd result (λ x. (x.0.0 ≡ junction) × (x.1.now ≡ rest)) }
{
    let (word, rest) = split_once(bytes, sign)?;
    let junction = trap.junction_named(word)?;
    Some((junction, rest))
}

// The end that is written so.
fn end_of(word: &[u8]) -> Option<End>
    ensures found { IfSome result (λ end. end_text end ≡ word.now) }
    ensures only { (end : AnEnd) → end_text end ≡ word.now → result ≡ Some end }
{
    match word {
        [b'a'] => Some(End::A),
        [b'b'] => Some(End::B),
        _ => None,
    }
}

/// An end before the sign, a space or a line end, and what comes after the sign.
pub fn end_until(bytes: &[u8], sign: u8) -> Option<(End, &[u8])>
    requires { IsGap sign }
    ensures found { IfSome result (λ x. bytes.now ≡ end_text x.0 ++ sign ∷ x.1.now) }
    ensures only { (end : AnEnd) (rest : List ℕ) → bytes.now ≡ end_text end ++ sign ∷ rest
        → IsSomeAnd result (λ x. (x.0 ≡ end) × (x.1.now ≡ rest)) }
{
    let (word, rest) = split_once(bytes, sign)?;
    let end = end_of(word)?;
    Some((end, rest))
}

// The word up to the first such sign or the end, and the rest from there on.
fn word_before(bytes: &[u8], sign: u8) -> (&[u8], &[u8])
    ensures parts { bytes.now ≡ result.0.now ++ result.1.now }
    ensures free { IsFree sign result.0.now }
    ensures ends { EndsWord sign result.1.now }
{
    match bytes.iter().position(|byte| *byte == sign) {
        Some(end) => bytes.split_at(end),
        None => bytes.split_at(bytes.len()),
    }
}

/// A label after a space, up to the next space or the end, and the rest from there on.
pub fn label_after<'a>(circuit: &Circuit, bytes: &'a [u8]) -> Option<(Qubit, &'a [u8])>
    requires { IsCircuit circuit.now }
    ensures found { IfSome result (λ x. bytes.now ≡ codes " " ++ label circuit.now x.0 ++ x.1.now) }
    ensures there { IfSome result (λ x. x.0.0 < qubit_count circuit.now) }
    ensures ends { IfSome result (λ x. EndsWord 32 x.1.now) }
    ensures only { (qubit : AQubit) (rest : List ℕ) → qubit.0 < qubit_count circuit.now → EndsWord 32 rest
        → bytes.now ≡ codes " " ++ label circuit.now qubit ++ rest
        → IsSomeAnd result (λ x. (x.0 ≡ qubit) × (x.1.now ≡ rest)) }
{
    let words = strip_prefix(bytes, b" ")?;
    let (word, rest) = word_before(words, b' ');
    let qubit = circuit.find(word)?;
    Some((qubit, rest))
}

/// How many steps the line says that there are, and what comes after it.
pub fn read_count(bytes: &[u8]) -> Option<(u64, &[u8])>
    ensures found { IfSome result (λ x. bytes.now ≡ (codes "steps " ++ decimal x.0 ++ codes "\n") ++ x.1.now) }
    ensures only { (count : ℕ) (rest : List ℕ) → count < 2 ^ 64
        → bytes.now ≡ (codes "steps " ++ decimal count ++ codes "\n") ++ rest
        → IsSomeAnd result (λ x. (x.0 ≡ count) × (x.1.now ≡ rest)) }
{
    let number = strip_prefix(bytes, b"steps ")?;
    number_until(number, b'\n')
}
