//! The line of one zone.

ghost use Rattle.std.specs.Prelude.{◌≡◌, ℕ, ◌<◌, ◌≤◌, ◌++◌, List, IfOk, IfSome, IsSomeAnd, All, codes, length};
ghost use Rattle.qc_base.specs.declared.ids.Qubit.{Qubit as AQubit};
ghost use Rattle.qc_base.specs.Spelling.{IsFree};
ghost use Rattle.circuit_core.specs.Circuit.{IsCircuit, qubit_count};
ghost use Rattle.schedule_text.specs.Text.{labels_text, place_line};

use crate::words::label_after;
use circuit_core::{Circuit, Qubits};
use qc_base::{NoMemory, Qubit, split_once, strip_prefix};
use std::alloc::Global;
use trap_model::ZonePart;

// What comes after the zone's name in its line, and what comes after the line.
fn words_of<'a>(zone: &ZonePart, bytes: &'a [u8]) -> Option<(&'a [u8], &'a [u8])>
    ensures found { IfSome result
        (λ x. bytes.now ≡ codes "place " ++ zone.now.name ++ x.0.now ++ codes "\n" ++ x.1.now) }
    ensures only { (words rest : List ℕ) → IsFree 10 words
        → bytes.now ≡ codes "place " ++ zone.now.name ++ words ++ codes "\n" ++ rest
        → IsSomeAnd result (λ x. (x.0.now ≡ words) × (x.1.now ≡ rest)) }
{
    let line = strip_prefix(bytes, b"place ")?;
    let words = strip_prefix(line, zone.name.bytes())?;
    split_once(words, b'\n')
}

// The qubits that these labels are, where there are no more than fit. A line may be as long as the file, and each label
// is a search over the qubits.
fn labels(
    alloc: Global,
    circuit: &Circuit,
    capacity: u32,
    words: &[u8],
) -> Result<Option<Vec<Qubit>>, NoMemory>
    requires { IsCircuit circuit.now }
    ensures found { IfOk result (λ o. IfSome o (λ list. words.now ≡ labels_text circuit.now list.items)) }
    ensures there { IfOk result
        (λ o. IfSome o (λ list. All (λ qubit. qubit.0 < qubit_count circuit.now) list.items)) }
    ensures only { IfOk result
        (λ o. (list : List AQubit) → length list ≤ capacity
        → All (λ qubit. qubit.0 < qubit_count circuit.now) list
        → words.now ≡ labels_text circuit.now list → IsSomeAnd o (λ x. x.items ≡ list)) }
{
    let mut list = Vec::new(alloc);
    let mut rest = words;
    while !rest.is_empty() {
        if list.len() >= capacity as usize {
            return Ok(None);
        }
        match label_after(circuit, rest) {
            Some((qubit, after)) => {
                list.push(qubit)?;
                rest = after;
            }
            None => return Ok(None),
        }
    }
    Ok(Some(list))
}

/// The qubits of the zone, where the bytes begin with its line and the zone has room for them, and what comes after the
/// line.
pub fn read_place_line<'a>(
    alloc: Global,
    circuit: &Circuit,
    zone: &ZonePart,
    bytes: &'a [u8],
) -> Result<Option<(Qubits, &'a [u8])>, NoMemory>
    requires circuit { IsCircuit circuit.now }
    ensures found { IfOk result
        (λ o. IfSome o (λ x. bytes.now ≡ place_line circuit.now zone.now x.0 ++ x.1.now)) }
    ensures there { IfOk result (λ o. IfSome o (λ x. All (λ qubit. qubit.0 < qubit_count circuit.now) x.0)) }
    ensures only { IfOk result
        (λ o. (list : List AQubit) (rest : List ℕ) → length list ≤ zone.now.capacity
        → All (λ qubit. qubit.0 < qubit_count circuit.now) list
        → bytes.now ≡ place_line circuit.now zone.now list ++ rest
        → IsSomeAnd o (λ x. (x.0 ≡ list) × (x.1.now ≡ rest))) }
{
    let Some((words, rest)) = words_of(zone, bytes) else {
        return Ok(None);
    };
    match labels(alloc, circuit, zone.capacity, words)? {
        Some(list) => Ok(Some((Qubits::from_vec(list), rest))),
        None => Ok(None),
    }
}
