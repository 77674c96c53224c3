//! What is said of a schedule in short: by a check, by a verification, and by a load.

ghost use Rattle.std.specs.Prelude.{◌≡◌, ◌++◌, decimal, IfOk, OnOk};
ghost use Rattle.schedule_report.specs.Report.{count_line};
ghost use Rattle.schedule_report.specs.Lines.{legal_line, least_line, load_lines};

use crate::counting::counts;
use qc_base::{NoMemory, push_number};
use std::alloc::Global;
use step_rules::Schedule;

/// A text, and then a number.
pub(crate) fn push_count(out: &mut Vec<u8>, text: &[u8], count: u64) -> Result<(), NoMemory>
    ensures { OnOk result (out.new.items ≡ out.old.items ++ text.now ++ decimal count) }
{
    out.extend_from_slice(text)?;
    push_number(out, count)
}

/// A line of a word and a number.
pub(crate) fn push_line(out: &mut Vec<u8>, word: &[u8], count: u64) -> Result<(), NoMemory>
    ensures { OnOk result (out.new.items ≡ out.old.items ++ count_line word.now count) }
{
    out.extend_from_slice(word)?;
    push_count(out, b" ", count)?;
    out.extend_from_slice(b"\n")?;
    Ok(())
}

/// The line of a check of a schedule that plays.
pub fn legal_line(alloc: Global, schedule: &Schedule) -> Result<Vec<u8>, NoMemory>
    ensures { IfOk result (λ text. text.items ≡ legal_line schedule.now) }
{
    let counts = counts(schedule);
    let mut out = Vec::new(alloc);
    push_count(&mut out, b"legal steps ", counts.steps)?;
    push_count(&mut out, b" actions ", counts.actions)?;
    push_count(&mut out, b" operations ", counts.ops)?;
    out.extend_from_slice(b"\n")?;
    Ok(out)
}

/// The line of a verification of a schedule with so many steps, which are the fewest.
pub fn least_line(alloc: Global, steps: u64) -> Result<Vec<u8>, NoMemory>
    ensures { IfOk result (λ text. text.items ≡ least_line steps) }
{
    let mut out = Vec::new(alloc);
    push_line(&mut out, b"least steps", steps)?;
    Ok(out)
}

/// The lines of a load with that seed, whose circuit has so many operations and was compiled to the schedule.
pub fn load_lines(
    alloc: Global,
    seed: u64,
    operations: u64,
    schedule: &Schedule,
) -> Result<Vec<u8>, NoMemory>
    ensures { IfOk result (λ text. text.items ≡ load_lines seed operations schedule.now) }
{
    let counts = counts(schedule);
    let mut out = Vec::new(alloc);
    push_line(&mut out, b"load", seed)?;
    push_line(&mut out, b"operations", operations)?;
    push_line(&mut out, b"steps", counts.steps)?;
    push_line(&mut out, b"actions", counts.actions)?;
    Ok(out)
}
