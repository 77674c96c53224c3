//! Reading the text of a schedule.

ghost use Rattle.std.specs.Prelude.{◌≡◌, ℕ, ◌+◌, ◌*◌, ◌<◌, ◌≤◌, ◌++◌, List, length, slice_get, Some, IfSome, IfOk, IfErr, MatchOption, codes};
ghost use Rattle.qc_base.specs.declared.ids.Qubit.{Qubit as AQubit};
ghost use Rattle.circuit_core.specs.Circuit.{IsCircuit, qubit_count};
ghost use Rattle.trap_parts.specs.Build.{IsTrap};
ghost use Rattle.step_rules.specs.declared.action.Action.{Action as AnAction};
ghost use Rattle.step_rules.specs.Placement.{IsPlacement};
ghost use Rattle.schedule_text.specs.Reading.{Spells, Refuses, whole_lines};
ghost use Rattle.schedule_text.specs.Progress.{Opens, head_text, opened_text, capacity, Sticks};
ghost use Rattle.schedule_text.specs.declared.text_fault.TextFault.TheVariants.{Line};

use crate::body_line::{BodyLine, read_body_line};
use crate::open::{fits, is_open};
use crate::place_line::read_place_line;
use crate::text_fault::TextFault;
use crate::words::read_count;
use circuit_core::{Circuit, Qubits};
use qc_base::{NoMemory, strip_prefix};
use std::alloc::Global;
use step_rules::{GivenFault, Placement, Schedule, Setting, traps_and_circuits_are_sound};
use trap_model::{Trap, ZonePart};

// How many lines end in the bytes.
fn line_ends(bytes: &[u8]) -> u64
    ensures lines { result ≡ whole_lines bytes.now }
    ensures few { result ≤ length bytes.now }
{
    let mut lines = 0;
    for byte in bytes {
        if *byte == b'\n' {
            lines += 1;
        }
    }
    lines
}

// That the line with which the rest of the bytes begins is bad.
fn bad_line(bytes: &[u8], rest: &[u8]) -> TextFault
    requires { length rest.now ≤ length bytes.now }
    ensures { (front : List ℕ) → bytes.now ≡ front ++ rest.now → result ≡ Line (whole_lines front + 1) }
{
    let front = &bytes[..bytes.len() - rest.len()];
    TextFault::Line {
        number: line_ends(front) + 1,
    }
}

// Adds the list of the next zone, where its line comes next and the list fits there, and answers what comes after.
fn read_list<'a>(
    alloc: Global,
    trap: &Trap,
    circuit: &Circuit,
    zone: &ZonePart,
    lists: &mut Vec<Qubits>,
    bytes: &'a [u8],
) -> Result<Option<&'a [u8]>, NoMemory>
    requires trap { IsTrap trap.now }
    requires circuit { IsCircuit circuit.now }
    requires opened { Opens trap.now circuit.now lists.old.items }
    requires next { slice_get trap.now.zones (length lists.old.items) ≡ Some zone.now }
    requires within { length lists.old.items < length trap.now.zones }
    ensures grown { IfOk result
        (λ o. MatchOption o
        (Sticks trap.now circuit.now (head_text trap.now circuit.now lists.old.items) bytes.now)
        (λ rest. head_text trap.now circuit.now lists.new.items ++ rest.now
        ≡ head_text trap.now circuit.now lists.old.items ++ bytes.now)) }
    ensures opens { IfOk result (λ o. IfSome o (λ rest. Opens trap.now circuit.now lists.new.items)) }
    ensures len { IfOk result (λ o. IfSome o (λ rest. length lists.new.items ≡ length lists.old.items + 1)) }
{
    let Some((list, rest)) = read_place_line(alloc, circuit, zone, bytes)? else {
        return Ok(None);
    };
    lists.push(list)?;
    if is_open(alloc, trap, circuit, lists)? {
        Ok(Some(rest))
    } else {
        Ok(None)
    }
}

// The lists of all zones, and what comes after their lines.
fn read_places<'a>(
    alloc: Global,
    trap: &Trap,
    circuit: &Circuit,
    bytes: &[u8],
    lines: &'a [u8],
) -> Result<(Vec<Qubits>, &'a [u8]), TextFault>
    requires trap { IsTrap trap.now }
    requires circuit { IsCircuit circuit.now }
    requires fits { qubit_count circuit.now ≤ capacity trap.now.zones }
    requires parts { bytes.now ≡ codes "qccd schedule 1\n" ++ lines.now }
    ensures found { IfOk result (λ x. bytes.now ≡ head_text trap.now circuit.now x.0.items ++ x.1.now) }
    ensures opens { IfOk result (λ x. Opens trap.now circuit.now x.0.items) }
    ensures all { IfOk result (λ x. length x.0.items ≡ length trap.now.zones) }
    ensures fault { IfErr result (Refuses trap.now circuit.now bytes.now) }
{
    let mut lists = Vec::new(alloc);
    let mut rest = lines;
    for zone in trap.zones() {
        match read_list(alloc, trap, circuit, zone, &mut lists, rest)? {
            Some(after) => rest = after,
            None => return Err(bad_line(bytes, rest)),
        }
    }
    Ok((lists, rest))
}

// The placement by these lists.
fn placed(
    alloc: Global,
    trap: &Trap,
    circuit: &Circuit,
    lists: Vec<Qubits>,
) -> Result<Placement, NoMemory>
    requires opened { Opens trap.now circuit.now lists.items }
    requires all { length lists.items ≡ length trap.now.zones }
    ensures same { IfOk result (λ placement. placement ≡ lists.items) }
    ensures placed { IfOk result (IsPlacement trap.now circuit.now) }
{
    match Placement::new(alloc, trap, circuit, lists) {
        Ok(placement) => Ok(placement),
        Err(fault) => match fault {
            GivenFault::NoMemory => Err(NoMemory),
            _ => unreachable!(),
        },
    }
}

// As many steps as the count says, but no more than the lines can hold: the line of a step has at least seven bytes.
fn steps_at_most(count: u64, lines: &[u8]) -> usize
    ensures counted { result ≤ count }
    ensures held { result * 7 ≤ length lines.now }
{
    count.min(lines.len() as u64 / 7) as usize
}

// The steps, after which the last line comes and nothing more.
fn read_body(
    alloc: Global,
    setting: &Setting,
    count: u64,
    bytes: &[u8],
    lines: &[u8],
) -> Result<Schedule, TextFault>
    requires trap { IsTrap setting.now.trap }
    requires circuit { IsCircuit setting.now.circuit }
    requires placed { IsPlacement setting.now.trap setting.now.circuit setting.now.placement }
    requires parts { bytes.now ≡ opened_text setting.now count ++ lines.now }
    ensures found { IfOk result
        (λ schedule. Spells setting.now.trap setting.now.circuit setting.now.placement schedule bytes.now) }
    ensures fault { IfErr result (Refuses setting.now.trap setting.now.circuit bytes.now) }
{
    let mut schedule = Schedule::new(alloc);
    schedule.reserve(steps_at_most(count, lines))?;
    let mut rest = lines;
    loop {
        let steps = schedule.steps().len() as u64;
        let found = read_body_line(alloc, setting, steps, count, rest)?;
        let Some((line, after)) = found else {
            return Err(bad_line(bytes, rest));
        };
        match line {
            BodyLine::Step => schedule.push_step()?,
            BodyLine::Act(action) => schedule.push_action(action)?,
            BodyLine::End if after.is_empty() => return Ok(schedule),
            BodyLine::End => return Err(bad_line(bytes, after)),
        }
        rest = after;
    }
}

/// The placement and the schedule that the bytes are the text of, or the first bad line.
pub fn read(
    alloc: Global,
    trap: &Trap,
    circuit: &Circuit,
    bytes: &[u8],
) -> Result<(Placement, Schedule), TextFault>
    ensures found { IfOk result (λ pair. Spells trap.now circuit.now pair.0 pair.1 bytes.now) }
    ensures only { IfOk result
        (λ pair. (placement : List (List AQubit)) (steps : List (List AnAction))
        → Spells trap.now circuit.now placement steps bytes.now
        → (placement ≡ pair.0) × (steps ≡ pair.1)) }
    ensures fault { IfErr result (Refuses trap.now circuit.now bytes.now) }
{
    traps_and_circuits_are_sound(trap, circuit);
    if !fits(trap, circuit) {
        return Err(TextFault::Line { number: 1 });
    }
    let Some(lines) = strip_prefix(bytes, b"qccd schedule 1\n") else {
        return Err(TextFault::Line { number: 1 });
    };
    let (lists, counted) = read_places(alloc, trap, circuit, bytes, lines)?;
    let placement = placed(alloc, trap, circuit, lists)?;
    let Some((count, body)) = read_count(counted) else {
        return Err(bad_line(bytes, counted));
    };
    let setting = Setting {
        trap,
        circuit,
        placement: &placement,
    };
    let schedule = read_body(alloc, &setting, count, bytes, body)?;
    Ok((placement, schedule))
}
