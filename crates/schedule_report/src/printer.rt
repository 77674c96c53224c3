//! The report of a schedule.

ghost use Rattle.std.specs.Prelude.{◌≡◌, ◌++◌, length, decimal, IfOk, OnOk};
ghost use Rattle.schedule_report.specs.Report.{kind_lines, zone_line, step_line, step_lines, report_text};
ghost use Rattle.schedule_report.specs.Tables.{lines_by};

use crate::counting::operations_in;
use crate::lines::{push_count, push_line};
use crate::tables::Tables;
use crate::tally::Tally;
use qc_base::NoMemory;
use std::alloc::Global;
use step_rules::{Action, Schedule, Setting, Step};
use trap_model::ZonePart;

// A line for each kind of action.
fn push_kinds(out: &mut Vec<u8>, tally: &Tally) -> Result<(), NoMemory>
    ensures { OnOk result (out.new.items ≡ out.old.items ++ kind_lines tally.now) }
{
    push_line(out, b"split", tally.splits)?;
    push_line(out, b"move", tally.moves)?;
    push_line(out, b"cross", tally.crosses)?;
    push_line(out, b"merge", tally.merges)?;
    push_line(out, b"swap", tally.swaps)?;
    push_line(out, b"op", tally.ops)
}

// The line of a zone.
fn push_zone(out: &mut Vec<u8>, name: &[u8], tally: &Tally) -> Result<(), NoMemory>
    ensures { OnOk result (out.new.items ≡ out.old.items ++ zone_line name.now tally.now) }
{
    out.extend_from_slice(b"zone ")?;
    out.extend_from_slice(name)?;
    push_count(out, b" ops ", tally.ops)?;
    push_count(out, b" swaps ", tally.swaps)?;
    push_count(out, b" out ", tally.splits)?;
    push_count(out, b" in ", tally.merges)?;
    out.extend_from_slice(b"\n")?;
    Ok(())
}

// A line for each zone.
#[tactic(auto, using(crate::proofs::ZoneLines::lines_more))]
fn push_zones(out: &mut Vec<u8>, zones: &[ZonePart], tallies: &[Tally]) -> Result<(), NoMemory>
    requires { length tallies.now ≡ length zones.now }
    ensures { OnOk result (out.new.items ≡ out.old.items ++ lines_by zones.now tallies.now) }
{
    for (number, zone) in zones.iter().enumerate() {
        push_zone(out, zone.name.bytes(), &tallies[number])?;
    }
    Ok(())
}

// The line of a step.
fn push_step(out: &mut Vec<u8>, number: u64, step: &[Action]) -> Result<(), NoMemory>
    ensures { OnOk result (out.new.items ≡ out.old.items ++ step_line number step.now) }
{
    push_count(out, b"step ", number)?;
    push_count(out, b" actions ", step.len() as u64)?;
    push_count(out, b" ops ", operations_in(step))?;
    out.extend_from_slice(b"\n")?;
    Ok(())
}

// A line for each step.
fn push_steps(out: &mut Vec<u8>, steps: &[Step]) -> Result<(), NoMemory>
    ensures { OnOk result (out.new.items ≡ out.old.items ++ step_lines 1 steps.now) }
{
    for (k, step) in steps.iter().enumerate() {
        push_step(out, k as u64 + 1, step.actions())?;
    }
    Ok(())
}

/// The report of a schedule: its counts, a line for each zone, and a line for each step.
#[tactic(auto, using(crate::proofs::ZoneLines::lines_of_tallies, crate::proofs::ZoneLines::tally_count))]
pub fn report(alloc: Global, setting: &Setting, schedule: &Schedule) -> Result<Vec<u8>, NoMemory>
    ensures { IfOk result (λ text. text.items ≡ report_text setting.now.trap schedule.now) }
{
    let zones = setting.trap.zones();
    let steps = schedule.steps();
    let tables = Tables::of(alloc, zones.len(), steps)?;
    let mut out = Vec::new(alloc);
    push_line(&mut out, b"steps", steps.len() as u64)?;
    push_kinds(&mut out, &tables.all)?;
    push_line(&mut out, b"parallel", tables.parallel)?;
    push_zones(&mut out, zones, &tables.zones)?;
    push_steps(&mut out, steps)?;
    Ok(out)
}
