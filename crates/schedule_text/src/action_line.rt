//! The line of an action.

ghost use Rattle.std.specs.Prelude.{◌≡◌, ℕ, ◌<◌, ◌^◌, ◌++◌, ◌∷◌, List, IfOk, IfSome, IsSomeAnd, codes, decimal, length};
ghost use Rattle.qc_base.specs.declared.ids.End.{End as AnEnd};
ghost use Rattle.circuit_core.specs.Circuit.{IsCircuit};
ghost use Rattle.trap_model.specs.Trap.{place_count, place_text};
ghost use Rattle.trap_parts.specs.Build.{IsTrap};
ghost use Rattle.step_rules.specs.declared.action.Action.{Action as AnAction};
ghost use Rattle.schedule_text.specs.Text.{zone_end, two_places, split_line, move_line, cross_line, merge_line, swap_line, performed_line, action_line};
ghost use Rattle.schedule_text.specs.Reading.{IsKnown};
ghost use Rattle.schedule_text.specs.Progress.{IsGap};

use crate::printer::push_op_line;
use crate::words::{end_until, junction_until, place_until};
use qc_base::{End, JunctionId, NoMemory, OpId, PlaceId, small_number_until, strip_prefix};
use std::alloc::Global;
use step_rules::{Action, Setting};
use trap_model::Trap;

// A zone and one of its ends before the sign, a space or a line end, and what comes after the sign.
fn zone_end_until<'a>(trap: &Trap, bytes: &'a [u8], sign: u8) -> Option<((PlaceId, End), &'a [u8])>
    requires trap { IsTrap trap.now }
    requires gap { IsGap sign }
    ensures found { IfSome result (λ x. bytes.now ≡ zone_end trap.now x.0.0.0 x.0.1 ++ sign ∷ x.1.now) }
    ensures there { IfSome result (λ x. x.0.0.0 < place_count trap.now) }
    ensures only { (zone : ℕ) (end : AnEnd) (rest : List ℕ) → zone < place_count trap.now
        → bytes.now ≡ zone_end trap.now zone end ++ sign ∷ rest
        → IsSomeAnd result (λ x. (x.0.0.0 ≡ zone) × (x.0.1 ≡ end) × (x.1.now ≡ rest)) }
{
    let (zone, after) = place_until(trap, bytes, b' ')?;
    let (end, rest) = end_until(after, sign)?;
    Some(((zone, end), rest))
}

// Two places before a line end, and what comes after it.
fn two_places_line<'a>(trap: &Trap, bytes: &'a [u8]) -> Option<((PlaceId, PlaceId), &'a [u8])>
    requires { IsTrap trap.now }
    ensures found { IfSome result (λ x. bytes.now ≡ two_places trap.now x.0.0.0 x.0.1.0 ++ 10 ∷ x.1.now) }
    ensures there { IfSome result (λ x. (x.0.0.0 < place_count trap.now) × (x.0.1.0 < place_count trap.now)) }
    ensures only { (from to : ℕ) (rest : List ℕ) → from < place_count trap.now → to < place_count trap.now
        → bytes.now ≡ two_places trap.now from to ++ 10 ∷ rest
        → IsSomeAnd result (λ x. (x.0.0.0 ≡ from) × (x.0.1.0 ≡ to) × (x.1.now ≡ rest)) }
{
    let (from, after) = place_until(trap, bytes, b' ')?;
    let (to, rest) = place_until(trap, after, b'\n')?;
    Some(((from, to), rest))
}

fn read_split<'a>(trap: &Trap, bytes: &'a [u8]) -> Option<((PlaceId, End, u32), &'a [u8])>
    requires { IsTrap trap.now }
    ensures found { IfSome result (λ x. bytes.now ≡ split_line trap.now x.0.0.0 x.0.1 x.0.2 ++ x.1.now) }
    ensures there { IfSome result (λ x. x.0.0.0 < place_count trap.now) }
    ensures only { (zone : ℕ) (end : AnEnd) (count : ℕ) (rest : List ℕ) → zone < place_count trap.now
        → count < 2 ^ 32
        → bytes.now ≡ split_line trap.now zone end count ++ rest
        → IsSomeAnd result (λ x. (x.0.0.0 ≡ zone) × (x.0.1 ≡ end) × (x.0.2 ≡ count) × (x.1.now ≡ rest)) }
{
    let words = strip_prefix(bytes, b"split ")?;
    let ((zone, end), number) = zone_end_until(trap, words, b' ')?;
    let (count, rest) = small_number_until(number, b'\n')?;
    Some(((zone, end, count), rest))
}

fn read_move<'a>(trap: &Trap, bytes: &'a [u8]) -> Option<((PlaceId, PlaceId), &'a [u8])>
    requires { IsTrap trap.now }
    ensures found { IfSome result (λ x. bytes.now ≡ move_line trap.now x.0.0.0 x.0.1.0 ++ x.1.now) }
    ensures there { IfSome result (λ x. (x.0.0.0 < place_count trap.now) × (x.0.1.0 < place_count trap.now)) }
    ensures only { (from to : ℕ) (rest : List ℕ) → from < place_count trap.now → to < place_count trap.now
        → bytes.now ≡ move_line trap.now from to ++ rest
        → IsSomeAnd result (λ x. (x.0.0.0 ≡ from) × (x.0.1.0 ≡ to) × (x.1.now ≡ rest)) }
{
    let places = strip_prefix(bytes, b"move ")?;
    two_places_line(trap, places)
}

fn read_cross<'a>(
    trap: &Trap,
    bytes: &'a [u8],
) -> Option<((JunctionId, PlaceId, PlaceId), &'a [u8])>
    requires { IsTrap trap.now }
    ensures found { IfSome result (λ x. bytes.now ≡ cross_line trap.now x.0.0.0 x.0.1.0 x.0.2.0 ++ x.1.now) }
    ensures there { IfSome result
        (λ x. (x.0.0.0 < length trap.now.junctions) × (x.0.1.0 < place_count trap.now)
        × (x.0.2.0 < place_count trap.now)) }
    ensures only { (junction from to : ℕ) (rest : List ℕ) → junction < length trap.now.junctions
        → from < place_count trap.now → to < place_count trap.now
        → bytes.now ≡ cross_line trap.now junction from to ++ rest
        → IsSomeAnd result (λ x. (x.0.0.0 ≡ junction) × (x.0.1.0 ≡ from) × (x.0.2.0 ≡ to) × (x.1.now ≡ rest)) }
{
    let words = strip_prefix(bytes, b"cross ")?;
    let (junction, places) = junction_until(trap, words, b' ')?;
    let ((from, to), rest) = two_places_line(trap, places)?;
    Some(((junction, from, to), rest))
}

fn read_merge<'a>(trap: &Trap, bytes: &'a [u8]) -> Option<((PlaceId, End), &'a [u8])>
    requires { IsTrap trap.now }
    ensures found { IfSome result (λ x. bytes.now ≡ merge_line trap.now x.0.0.0 x.0.1 ++ x.1.now) }
    ensures there { IfSome result (λ x. x.0.0.0 < place_count trap.now) }
    ensures only { (zone : ℕ) (end : AnEnd) (rest : List ℕ) → zone < place_count trap.now
        → bytes.now ≡ merge_line trap.now zone end ++ rest
        → IsSomeAnd result (λ x. (x.0.0.0 ≡ zone) × (x.0.1 ≡ end) × (x.1.now ≡ rest)) }
{
    let words = strip_prefix(bytes, b"merge ")?;
    zone_end_until(trap, words, b'\n')
}

fn read_swap<'a>(trap: &Trap, bytes: &'a [u8]) -> Option<((PlaceId, u32), &'a [u8])>
    requires { IsTrap trap.now }
    ensures found { IfSome result (λ x. bytes.now ≡ swap_line trap.now x.0.0.0 x.0.1 ++ x.1.now) }
    ensures there { IfSome result (λ x. x.0.0.0 < place_count trap.now) }
    ensures only { (zone index : ℕ) (rest : List ℕ) → zone < place_count trap.now → index < 2 ^ 32
        → bytes.now ≡ swap_line trap.now zone index ++ rest
        → IsSomeAnd result (λ x. (x.0.0.0 ≡ zone) × (x.0.1 ≡ index) × (x.1.now ≡ rest)) }
{
    let words = strip_prefix(bytes, b"swap ")?;
    let (zone, number) = place_until(trap, words, b' ')?;
    let (index, rest) = small_number_until(number, b'\n')?;
    Some(((zone, index), rest))
}

// The zone and the number of an operation, and its line from the number on.
fn numbered<'a>(trap: &Trap, bytes: &'a [u8]) -> Option<((PlaceId, u32), &'a [u8])>
    requires { IsTrap trap.now }
    ensures found { IfSome result
        (λ x. bytes.now ≡ codes "op " ++ place_text trap.now x.0.0.0 ++ codes " " ++ x.1.now) }
    ensures there { IfSome result (λ x. x.0.0.0 < place_count trap.now) }
    ensures only { (zone number : ℕ) (line more : List ℕ) → zone < place_count trap.now → number < 2 ^ 32
        → bytes.now ≡ codes "op " ++ place_text trap.now zone ++ codes " " ++ line
        → line ≡ decimal number ++ 32 ∷ more
        → IsSomeAnd result (λ x. (x.0.0.0 ≡ zone) × (x.0.1 ≡ number) × (x.1.now ≡ line)) }
{
    let words = strip_prefix(bytes, b"op ")?;
    let (zone, line) = place_until(trap, words, b' ')?;
    let (number, _) = small_number_until(line, b' ')?;
    Some(((zone, number), line))
}

fn read_op<'a>(
    alloc: Global,
    setting: &Setting,
    bytes: &'a [u8],
) -> Result<Option<((PlaceId, OpId), &'a [u8])>, NoMemory>
    requires trap { IsTrap setting.now.trap }
    requires circuit { IsCircuit setting.now.circuit }
    ensures found { IfOk result
        (λ o. IfSome o (λ x. bytes.now ≡ performed_line setting.now x.0.0.0 x.0.1.0 ++ x.1.now)) }
    ensures there { IfOk result
        (λ o. IfSome o
        (λ x. (x.0.0.0 < place_count setting.now.trap) × (x.0.1.0 < length setting.now.circuit.ops))) }
    ensures only { IfOk result
        (λ o. (zone op : ℕ) (rest : List ℕ) → zone < place_count setting.now.trap
        → op < length setting.now.circuit.ops
        → bytes.now ≡ performed_line setting.now zone op ++ rest
        → IsSomeAnd o (λ x. (x.0.0.0 ≡ zone) × (x.0.1.0 ≡ op) × (x.1.now ≡ rest))) }
{
    let Some(((zone, number), line)) = numbered(setting.trap, bytes) else {
        return Ok(None);
    };
    let op = OpId(number);
    let Some(operation) = setting.circuit.op(op) else {
        return Ok(None);
    };
    let mut text = Vec::new(alloc);
    push_op_line(
        &mut text,
        setting.circuit,
        setting.placement,
        number,
        operation,
    )?;
    match strip_prefix(line, text.as_slice()) {
        Some(rest) => Ok(Some(((zone, op), rest))),
        None => Ok(None),
    }
}

/// The action, where the bytes begin with its line, and what comes after the line.
pub fn read_action<'a>(
    alloc: Global,
    setting: &Setting,
    bytes: &'a [u8],
) -> Result<Option<(Action, &'a [u8])>, NoMemory>
    requires trap { IsTrap setting.now.trap }
    requires circuit { IsCircuit setting.now.circuit }
    ensures found { IfOk result (λ o. IfSome o (λ x. bytes.now ≡ action_line setting.now x.0 ++ x.1.now)) }
    ensures known { IfOk result (λ o. IfSome o (λ x. IsKnown setting.now.trap setting.now.circuit x.0)) }
    ensures only { IfOk result
        (λ o. (action : AnAction) (rest : List ℕ) → IsKnown setting.now.trap setting.now.circuit action
        → bytes.now ≡ action_line setting.now action ++ rest
        → IsSomeAnd o (λ x. (x.0 ≡ action) × (x.1.now ≡ rest))) }
{
    let trap = setting.trap;
    if let Some(((zone, end, count), rest)) = read_split(trap, bytes) {
        return Ok(Some((Action::Split { zone, end, count }, rest)));
    }
    if let Some(((from, to), rest)) = read_move(trap, bytes) {
        return Ok(Some((Action::Move { from, to }, rest)));
    }
    if let Some(((junction, from, to), rest)) = read_cross(trap, bytes) {
        return Ok(Some((Action::Cross { junction, from, to }, rest)));
    }
    if let Some(((zone, end), rest)) = read_merge(trap, bytes) {
        return Ok(Some((Action::Merge { zone, end }, rest)));
    }
    if let Some(((zone, index), rest)) = read_swap(trap, bytes) {
        return Ok(Some((Action::Swap { zone, index }, rest)));
    }
    match read_op(alloc, setting, bytes)? {
        Some(((zone, op), rest)) => Ok(Some((Action::Op { zone, op }, rest))),
        None => Ok(None),
    }
}
