//! Derivations in LRAT.

ghost use Rattle.std.specs.Prelude.{◌≡◌, ◌≤◌, ◌<◌, ◌+◌, ◌^◌, ◌++◌, map, reverse, length, All, OnOk, IfOk, codes, decimal};
ghost use Rattle.sat_base.specs.Literal.{positive_of};
ghost use Rattle.sat_base.specs.Derivation.{Refutes};
ghost use Rattle.sat_base.specs.Certificate.{hints_text};
ghost use Rattle.derivation_log.specs.Log.{derived_id, IsLine, IsSound, clause_of, hints_of};
ghost use Rattle.derivation_log.specs.Printing.{number_of};
ghost use Rattle.lrat_out.specs.Lines.{lrat_text};
ghost use Rattle.lrat_out.specs.Export.{thin, hint_of, proof_lines, closing_lines};
ghost use Rattle.lrat_out.specs.Proof.{derived_text, NumbersFit};

use crate::formula_text::push_literals;
use crate::reading::assume;
use crate::standing::{Standing, standing_of};
use derivation_log::{LineId, Log};
use qc_base::{NoMemory, push_number};
use sat_base::LitSet;
use std::alloc::Global;

// Appends a number and a space.
fn push_word(out: &mut Vec<u8>, number: u64) -> Result<(), NoMemory>
    ensures { OnOk result (out.new.items ≡ out.old.items ++ (decimal number ++ codes " ")) }
{
    push_number(out, number)?;
    out.extend_from_slice(b" ")?;
    Ok(())
}

// The number of a line of the log, where derived lines are numbered on after so many clauses.
fn number_after(clauses: u64, line: LineId) -> u64
    requires { number_of clauses line < 2 ^ 64 }
    ensures { result ≡ number_of clauses line }
{
    if line.derived {
        clauses + line.number
    } else {
        line.number
    }
}

// Appends the numbers of the hints, the last first, that are kept where the literals of the set are true.
fn push_hints(
    out: &mut Vec<u8>,
    trues: &mut LitSet,
    log: &Log,
    hints: &[LineId],
) -> Result<(), NoMemory>
    requires clauses { length log.now.axioms + 1 < 2 ^ 64 }
    requires named { All (IsLine log.now) hints.now }
    requires fit { NumbersFit log.now hints.now }
    ensures { OnOk result (out.new.items
        ≡ out.old.items ++ hints_text (thin trues.old (reverse (map (hint_of log.now) hints.now)))) }
{
    let clauses = log.axioms() + 1;
    let mut left = hints;
    while let Some((hint, before)) = left.split_last() {
        let number = number_after(clauses, *hint);
        match standing_of(trues, log.clause(*hint)) {
            Standing::Holds => {}
            Standing::Fails => {
                push_word(out, number)?;
                return Ok(());
            }
            Standing::OneOpen(lit) => {
                push_word(out, number)?;
                trues.insert(lit)?;
            }
            Standing::MoreOpen => push_word(out, number)?,
        }
        left = before;
    }
    Ok(())
}

// Appends the derived line of that number.
fn push_derived(
    out: &mut Vec<u8>,
    trues: &mut LitSet,
    log: &Log,
    number: u64,
) -> Result<(), NoMemory>
    requires line { IsLine log.now (derived_id number) }
    requires fits { length log.now.axioms + 1 + number < 2 ^ 64 }
    ensures { OnOk result (out.new.items ≡ out.old.items ++ derived_text log.now number) }
{
    let line = LineId {
        derived: true,
        number,
    };
    let clause = log.clause(line);
    push_word(out, log.axioms() + 1 + number)?;
    push_literals(out, clause)?;
    out.extend_from_slice(b"0 ")?;
    if !assume(trues, clause)? {
        unreachable!();
    }
    push_hints(out, trues, log, log.hints(line))?;
    out.extend_from_slice(b"0\n")?;
    Ok(())
}

// Appends the line of the empty clause, where the last line isn't empty.
fn push_closing(out: &mut Vec<u8>, log: &Log, last: u64) -> Result<(), NoMemory>
    requires line { IsLine log.now (derived_id last) }
    requires fits { length log.now.axioms + 1 + last + 1 < 2 ^ 64 }
    ensures { OnOk result (out.new.items ≡ out.old.items
        ++ lrat_text (closing_lines (length log.now.axioms) last (clause_of log.now (derived_id last)))) }
{
    let line = LineId {
        derived: true,
        number: last,
    };
    if log.clause(line).is_empty() {
        return Ok(());
    }
    let goal = log.axioms() + 1;
    push_word(out, goal + last + 1)?;
    out.extend_from_slice(b"0 ")?;
    push_word(out, goal)?;
    push_word(out, goal + last)?;
    out.extend_from_slice(b"0\n")?;
    Ok(())
}

/// The derived lines of the log up to the last one, which refutes the goal, in LRAT, over its axioms and the goal's
/// unit clause after them.
pub fn lrat(alloc: Global, log: &Log, goal: u32, last: u64) -> Result<Vec<u8>, NoMemory>
    requires line { IsLine log.now (derived_id last) }
    requires refutes { Refutes (positive_of goal) (clause_of log.now (derived_id last)) }
    ensures text { IfOk result (λ text. text.items ≡ lrat_text (proof_lines log.now last)) }
    ensures fits { IfOk result (λ text. length log.now.axioms + last + 2 < 2 ^ 64) }
{
    // Numbers past 64 bits would need more memory than a machine has.
    let Some(count) = log.axioms().checked_add(last) else {
        return Err(NoMemory);
    };
    if count > u64::MAX - 2 {
        return Err(NoMemory);
    }
    let mut trues = LitSet::new(alloc);
    let mut out = Vec::new(alloc);
    for k in 0..last {
        push_derived(&mut out, &mut trues, log, k + 1)?;
    }
    push_closing(&mut out, log, last)?;
    Ok(out)
}
