//! Reading the lines of a certificate back into a log.

ghost use Rattle.std.specs.Prelude.{◌≡◌, ◌<◌, ◌≤◌, ◌^◌, ◌++◌, ◌∷◌, [], List, ℕ, All, length, map, IfOk, IfErr, IfSome, IfNone, IsSomeAnd, OnOk};
ghost use Rattle.qc_base.specs.Spelling.{IsFree};
ghost use Rattle.sat_base.specs.Literal.{positive_of};
ghost use Rattle.sat_base.specs.Derivation.{AnyRefutes};
ghost use Rattle.derivation_log.specs.Log.{clauses_of, log_of};
ghost use Rattle.derivation_log.specs.Reading.{task_of, Answers, id_of, TakesLine, HasFaultAt, IsFirstRefuting};

use crate::line_id::LineId;
use crate::lines_fault::LinesFault;
use crate::log::Log;
use certificate_lines::{is_good, read_line, refutes};
use qc_base::{NoMemory, split_once};
use sat_base::{Formula, Lit, Resolution};
use std::alloc::Global;

// What a line is read and judged in.
#[derive(Drop)]
struct Reader {
    // The formula, and after it the derived clauses.
    clauses: Formula,
    lits: Vec<Lit>,
    hints: Vec<u64>,
    ids: Vec<LineId>,
    resolution: Resolution,
}

// The first line with its line feed, and what comes after it.
fn split_line(bytes: &[u8]) -> Option<(&[u8], &[u8])>
    ensures found { IfSome result (λ x. bytes.now ≡ x.0.now ++ x.1.now) }
    ensures only { (word rest : List ℕ) → IsFree 10 word → bytes.now ≡ word ++ 10 ∷ rest
        → IsSomeAnd result (λ x. x.0.now ≡ word ++ 10 ∷ []) }
{
    let (word, rest) = split_once(bytes, b'\n')?;
    Some((&bytes[..word.len() + 1], rest))
}

// The line that a number names, where derived lines are numbered on after so many axioms.
fn id_of(axioms: u64, number: u64) -> LineId
    ensures { result ≡ id_of axioms number }
{
    if number <= axioms {
        LineId {
            derived: false,
            number,
        }
    } else {
        LineId {
            derived: true,
            number: number - axioms,
        }
    }
}

// The lines that the numbers name.
fn name_lines(ids: &mut Vec<LineId>, axioms: u64, numbers: &[u64]) -> Result<(), NoMemory>
    ensures { OnOk result (ids.new.items ≡ map (id_of axioms) numbers.now) }
{
    ids.clear();
    for &number in numbers {
        ids.push(id_of(axioms, number))?;
    }
    Ok(())
}

// Takes the line that the bytes begin with, and answers what comes after it.
fn take_line<'a>(
    log: &mut Log,
    reader: &mut Reader,
    vars: u32,
    bytes: &'a [u8],
    place: u64,
) -> Result<&'a [u8], LinesFault>
    requires few { vars < 2 ^ 31 }
    requires clauses { reader.old.clauses ≡ log.old.axioms ++ clauses_of log.old.derived }
    ensures ok { IfOk result (λ rest. TakesLine vars log.old reader.old.clauses bytes.now rest.now log.new) }
    ensures clauses { OnOk result (reader.new.clauses ≡ log.new.axioms ++ clauses_of log.new.derived) }
    ensures err { IfErr result (λ fault. HasFaultAt vars reader.old.clauses bytes.now place fault) }
{
    // A number past 64 bits would need more memory than a machine has.
    let Some(number) = reader.clauses.len().checked_add(1) else {
        return Err(LinesFault::NoMemory);
    };
    let Some((line, rest)) = split_line(bytes) else {
        return Err(LinesFault::Line { n: place });
    };
    if !read_line(line, number, vars, &mut reader.lits, &mut reader.hints)? {
        return Err(LinesFault::Line { n: place });
    }
    if !is_good(
        &mut reader.resolution,
        &reader.clauses,
        vars,
        &reader.lits,
        &reader.hints,
    )? {
        return Err(LinesFault::Bad { n: place });
    }
    name_lines(&mut reader.ids, log.axioms(), &reader.hints)?;
    reader.clauses.push(&reader.lits)?;
    log.add(&reader.lits, &reader.ids)?;
    Ok(rest)
}

// Adds the clauses of the formula to the log and to the reader's clauses.
fn copy_formula(log: &mut Log, clauses: &mut Formula, formula: &Formula) -> Result<(), NoMemory>
    requires log { log.old ≡ log_of [] [] }
    requires clauses { clauses.old ≡ [] }
    ensures log { OnOk result (log.new ≡ log_of formula.now []) }
    ensures clauses { OnOk result (clauses.new ≡ formula.now) }
{
    for k in 0..formula.len() {
        log.axiom(formula.clause(k + 1))?;
        clauses.push(formula.clause(k + 1))?;
    }
    Ok(())
}

impl Log {
    /// The log of the lines after the head of a certificate over this formula, with variables up to vars: its
    /// axioms are the clauses of the formula, and its derived lines are those of the text. Else the first fault,
    /// where lines are counted on from first.
    pub fn from_text(
        alloc: Global,
        formula: &Formula,
        vars: u32,
        lines: &[u8],
        first: u64,
    ) -> Result<Log, LinesFault>
        requires { vars < 2 ^ 31 }
        ensures { Answers (task_of formula.now vars first) lines.now result }
    {
        let mut log = Log::new(alloc);
        let mut reader = Reader {
            clauses: Formula::new(alloc),
            lits: Vec::new(alloc),
            hints: Vec::new(alloc),
            ids: Vec::new(alloc),
            resolution: Resolution::new(alloc),
        };
        copy_formula(&mut log, &mut reader.clauses, formula)?;
        let mut rest = lines;
        let mut place = first;
        while !rest.is_empty() {
            rest = take_line(&mut log, &mut reader, vars, rest, place)?;
            let Some(next) = place.checked_add(1) else {
                return Err(LinesFault::NoMemory);
            };
            place = next;
        }
        Ok(log)
    }

    /// The first derived line that refutes the goal, a variable: a line that has no literal but the negated goal.
    pub fn refuting(&self, goal: u32) -> Option<u64>
        requires from_1 { 1 ≤ goal }
        requires below { goal < 2 ^ 31 }
        ensures found { IfSome result (IsFirstRefuting self.now goal) }
        ensures none { IfNone result (AnyRefutes (positive_of goal) (clauses_of self.now.derived) → ⊥) }
    {
        let positive = Lit::new(goal, true);
        for k in 0..self.derived() {
            let line = LineId {
                derived: true,
                number: k + 1,
            };
            if refutes(self.clause(line), positive) {
                return Some(k + 1);
            }
        }
        None
    }
}
