//! The text of a schedule.

ghost use Rattle.std.specs.Prelude.{◌≡◌, ◌+◌, ◌<◌, drop, length, ◌++◌, OnOk, IfOk};
ghost use Rattle.std.specs.List.{flat_map};
ghost use Rattle.circuit_core.specs.Op.{HasSmallAngles};
ghost use Rattle.step_rules.specs.Setting.{setting_of};
ghost use Rattle.schedule_text.specs.Text.{at, labels_text, place_line, place_lines, ion_words, op_line, end_text, zone_end, two_places};
ghost use Rattle.schedule_text.specs.Text.{split_line, move_line, cross_line, merge_line, swap_line, performed_line, action_line, step_lines, schedule_text};

use circuit_core::{Circuit, Op, Qubits, push_label, push_op};
use qc_base::{End, JunctionId, NoMemory, OpId, PlaceId, Qubit, push_number};
use std::alloc::Global;
use step_rules::{Action, Placement, Schedule, Setting, Step};
use trap_model::{Trap, ZonePart};

fn push_place(
    out: &mut Vec<u8>,
    circuit: &Circuit,
    zone: &ZonePart,
    list: &[Qubit],
) -> Result<(), NoMemory>
    ensures { OnOk result (out.new.items ≡ out.old.items ++ place_line circuit.now zone.now list.now) }
{
    out.extend_from_slice(b"place ")?;
    out.extend_from_slice(zone.name.bytes())?;
    push_labels(out, circuit, list)?;
    out.extend_from_slice(b"\n")?;
    Ok(())
}

fn push_labels(out: &mut Vec<u8>, circuit: &Circuit, list: &[Qubit]) -> Result<(), NoMemory>
    ensures { OnOk result (out.new.items ≡ out.old.items ++ labels_text circuit.now list.now) }
{
    for qubit in list {
        out.extend_from_slice(b" ")?;
        push_label(out, circuit.qregs(), qubit.0)?;
    }
    Ok(())
}

// The line of one zone, where it has a list.
fn push_place_at(
    out: &mut Vec<u8>,
    circuit: &Circuit,
    zones: &[ZonePart],
    lists: &[Qubits],
    k: usize,
) -> Result<(), NoMemory>
    requires { k < length zones.now }
    ensures { OnOk result
        (out.new.items ++ place_lines circuit.now (drop (k + 1) zones.now) (drop (k + 1) lists.now)
        ≡ out.old.items ++ place_lines circuit.now (drop k zones.now) (drop k lists.now)) }
{
    if k >= lists.len() {
        return Ok(());
    }
    push_place(out, circuit, &zones[k], lists[k].items())?;
    Ok(())
}

fn push_place_lines(
    out: &mut Vec<u8>,
    circuit: &Circuit,
    zones: &[ZonePart],
    lists: &[Qubits],
) -> Result<(), NoMemory>
    ensures { OnOk result (out.new.items ≡ out.old.items ++ place_lines circuit.now zones.now lists.now) }
{
    for k in 0..zones.len() {
        push_place_at(out, circuit, zones, lists, k)?;
    }
    Ok(())
}

fn push_places(
    out: &mut Vec<u8>,
    circuit: &Circuit,
    trap: &Trap,
    placement: &Placement,
) -> Result<(), NoMemory>
    ensures { OnOk result
        (out.new.items ≡ out.old.items ++ place_lines circuit.now trap.now.zones placement.now) }
{
    push_place_lines(out, circuit, trap.zones(), placement.lists())
}

fn push_ions(out: &mut Vec<u8>, placement: &Placement, op: &Op) -> Result<(), NoMemory>
    ensures { OnOk result (out.new.items ≡ out.old.items ++ ion_words placement.now op.now) }
{
    for index in 0..op.width() {
        out.extend_from_slice(b" ")?;
        push_number(out, placement.ion_of(op.qubit(index)).0 as u64)?;
    }
    Ok(())
}

/// The line of an operation from its number on.
pub(crate) fn push_op_line(
    out: &mut Vec<u8>,
    circuit: &Circuit,
    placement: &Placement,
    number: u32,
    op: &Op,
) -> Result<(), NoMemory>
    requires { HasSmallAngles op.now }
    ensures { OnOk result (out.new.items ≡ out.old.items ++ op_line circuit.now placement.now number op.now) }
{
    push_number(out, number as u64)?;
    out.extend_from_slice(b" ions")?;
    push_ions(out, placement, op)?;
    out.extend_from_slice(b" : ")?;
    push_op(out, circuit, op)?;
    out.extend_from_slice(b"\n")?;
    Ok(())
}

fn push_end(out: &mut Vec<u8>, end: End) -> Result<(), NoMemory>
    ensures { OnOk result (out.new.items ≡ out.old.items ++ end_text end) }
{
    match end {
        End::A => out.extend_from_slice(b"a")?,
        End::B => out.extend_from_slice(b"b")?,
    }
    Ok(())
}

fn push_zone_end(out: &mut Vec<u8>, trap: &Trap, zone: PlaceId, end: End) -> Result<(), NoMemory>
    ensures { OnOk result (out.new.items ≡ out.old.items ++ zone_end trap.now zone.0 end) }
{
    trap.print_place(zone, out)?;
    out.extend_from_slice(b" ")?;
    push_end(out, end)
}

fn push_two_places(
    out: &mut Vec<u8>,
    trap: &Trap,
    from: PlaceId,
    to: PlaceId,
) -> Result<(), NoMemory>
    ensures { OnOk result (out.new.items ≡ out.old.items ++ two_places trap.now from.0 to.0) }
{
    trap.print_place(from, out)?;
    out.extend_from_slice(b" ")?;
    trap.print_place(to, out)
}

fn push_junction(out: &mut Vec<u8>, trap: &Trap, junction: JunctionId) -> Result<(), NoMemory>
    ensures { OnOk result (out.new.items ≡ out.old.items ++ at (λ name. name) trap.now.junctions junction.0) }
{
    if let Some(name) = trap.junctions().get(junction.0 as usize) {
        out.extend_from_slice(name.bytes())?;
    }
    Ok(())
}

fn push_split(
    out: &mut Vec<u8>,
    trap: &Trap,
    zone: PlaceId,
    end: End,
    count: u32,
) -> Result<(), NoMemory>
    ensures { OnOk result (out.new.items ≡ out.old.items ++ split_line trap.now zone.0 end count) }
{
    out.extend_from_slice(b"split ")?;
    push_zone_end(out, trap, zone, end)?;
    out.extend_from_slice(b" ")?;
    push_number(out, count as u64)?;
    out.extend_from_slice(b"\n")?;
    Ok(())
}

fn push_cross(
    out: &mut Vec<u8>,
    trap: &Trap,
    junction: JunctionId,
    from: PlaceId,
    to: PlaceId,
) -> Result<(), NoMemory>
    ensures { OnOk result (out.new.items ≡ out.old.items ++ cross_line trap.now junction.0 from.0 to.0) }
{
    out.extend_from_slice(b"cross ")?;
    push_junction(out, trap, junction)?;
    out.extend_from_slice(b" ")?;
    push_two_places(out, trap, from, to)?;
    out.extend_from_slice(b"\n")?;
    Ok(())
}

fn push_swap(out: &mut Vec<u8>, trap: &Trap, zone: PlaceId, index: u32) -> Result<(), NoMemory>
    ensures { OnOk result (out.new.items ≡ out.old.items ++ swap_line trap.now zone.0 index) }
{
    out.extend_from_slice(b"swap ")?;
    trap.print_place(zone, out)?;
    out.extend_from_slice(b" ")?;
    push_number(out, index as u64)?;
    out.extend_from_slice(b"\n")?;
    Ok(())
}

fn push_move(out: &mut Vec<u8>, trap: &Trap, from: PlaceId, to: PlaceId) -> Result<(), NoMemory>
    ensures { OnOk result (out.new.items ≡ out.old.items ++ move_line trap.now from.0 to.0) }
{
    out.extend_from_slice(b"move ")?;
    push_two_places(out, trap, from, to)?;
    out.extend_from_slice(b"\n")?;
    Ok(())
}

fn push_merge(out: &mut Vec<u8>, trap: &Trap, zone: PlaceId, end: End) -> Result<(), NoMemory>
    ensures { OnOk result (out.new.items ≡ out.old.items ++ merge_line trap.now zone.0 end) }
{
    out.extend_from_slice(b"merge ")?;
    push_zone_end(out, trap, zone, end)?;
    out.extend_from_slice(b"\n")?;
    Ok(())
}

fn push_performed(
    out: &mut Vec<u8>,
    setting: &Setting,
    zone: PlaceId,
    op: OpId,
) -> Result<(), NoMemory>
    ensures { OnOk result (out.new.items ≡ out.old.items ++ performed_line setting.now zone.0 op.0) }
{
    out.extend_from_slice(b"op ")?;
    setting.trap.print_place(zone, out)?;
    out.extend_from_slice(b" ")?;
    if let Some(operation) = setting.circuit.op(op) {
        push_op_line(out, setting.circuit, setting.placement, op.0, operation)?;
    }
    Ok(())
}

fn push_action(out: &mut Vec<u8>, setting: &Setting, action: &Action) -> Result<(), NoMemory>
    ensures { OnOk result (out.new.items ≡ out.old.items ++ action_line setting.now action.now) }
{
    let trap = setting.trap;
    match *action {
        Action::Split { zone, end, count } => push_split(out, trap, zone, end, count),
        Action::Move { from, to } => push_move(out, trap, from, to),
        Action::Cross { junction, from, to } => push_cross(out, trap, junction, from, to),
        Action::Merge { zone, end } => push_merge(out, trap, zone, end),
        Action::Swap { zone, index } => push_swap(out, trap, zone, index),
        Action::Op { zone, op } => push_performed(out, setting, zone, op),
    }
}

fn push_step(out: &mut Vec<u8>, setting: &Setting, actions: &[Action]) -> Result<(), NoMemory>
    ensures { OnOk result (out.new.items ≡ out.old.items ++ flat_map (action_line setting.now) actions.now) }
{
    for action in actions {
        push_action(out, setting, action)?;
    }
    Ok(())
}

fn push_steps(out: &mut Vec<u8>, setting: &Setting, steps: &[Step]) -> Result<(), NoMemory>
    ensures { OnOk result (out.new.items ≡ out.old.items ++ step_lines setting.now 1 steps.now) }
{
    for (k, step) in steps.iter().enumerate() {
        out.extend_from_slice(b"step ")?;
        push_number(out, k as u64 + 1)?;
        out.extend_from_slice(b"\n")?;
        push_step(out, setting, step.actions())?;
    }
    Ok(())
}

/// The text of a schedule from a placement.
pub fn print(
    alloc: Global,
    trap: &Trap,
    circuit: &Circuit,
    placement: &Placement,
    schedule: &Schedule,
) -> Result<Vec<u8>, NoMemory>
    ensures { IfOk result
        (λ text. text.items ≡ schedule_text (setting_of trap.now circuit.now placement.now) schedule.now) }
{
    let setting = Setting {
        trap,
        circuit,
        placement,
    };
    let steps = schedule.steps();
    let mut out = Vec::new(alloc);
    out.extend_from_slice(b"qccd schedule 1\n")?;
    push_places(&mut out, circuit, trap, placement)?;
    out.extend_from_slice(b"steps ")?;
    push_number(&mut out, steps.len() as u64)?;
    out.extend_from_slice(b"\n")?;
    push_steps(&mut out, &setting, steps)?;
    out.extend_from_slice(b"end\n")?;
    Ok(out)
}
