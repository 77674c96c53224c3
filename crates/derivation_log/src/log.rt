//! Logs of derivations by resolution.

ghost use Rattle.std.specs.Prelude.{◌≡◌, ◌+◌, ◌≤◌, ◌<◌, ◌^◌, ◌↔◌, List, [], ◌∷◌, ◌++◌, length, All, IfOk, OnOk, OnErr};
ghost use Rattle.sat_base.specs.Literal.{Literal};
ghost use Rattle.sat_base.specs.Clauses.{HasDistinctVariables, HaveDistinctVariables, SameLiterals};
ghost use Rattle.sat_base.specs.Resolution.{Resolve, ResolveTo};
ghost use Rattle.sat_base.specs.Derivation.{IsAscending};
ghost use Rattle.sat_base.specs.Fresh.{IsConsistent};
ghost use Rattle.sat_base.specs.Certificate.{certificate_text};
ghost use Rattle.derivation_log.specs.Log.{Lines, log_of, axiom_id, derived_id, IsLine, clause_of, hints_of, chain_of, IsSound, Follows, AddsDerived};
ghost use Rattle.derivation_log.specs.Printing.{Covers, first_lines};

use crate::derived_lines::DerivedLines;
use crate::line_id::LineId;
use crate::printer::Printer;
use crate::words::Words;
use qc_base::NoMemory;
use sat_base::{Formula, Head, Lit, Resolution};
use std::alloc::Global;
use std::marker::Model;

/// Axioms, and the lines derived from them by resolution, each of which follows from the lines before it.
/// Contracts see the lists of both.
#[derive(Debug, Drop)]
pub struct Log {
    axioms: Formula,
    derived: DerivedLines,
    // What a line is resolved and sorted in.
    resolution: Resolution,
    clause: Vec<Lit>,
}

impl Model for Log {
    ghost use Rattle.derivation_log.specs.Log.{Lines, log_of, IsSound};

    ghost Value = { Lines };

    ghost view = { λ l. log_of l.axioms l.derived };

    ghost invariant = { λ l. IsSound (log_of l.axioms l.derived) };
}

// The clause of a line.
fn clause_in<'a>(axioms: &'a Formula, derived: &'a DerivedLines, line: LineId) -> &'a [Lit]
    requires { IsLine (log_of axioms.now derived.now) line }
    ensures { result.now ≡ clause_of (log_of axioms.now derived.now) line }
{
    if line.derived {
        derived.clause(line.number)
    } else {
        axioms.clause(line.number)
    }
}

// Resolves the chain, which does resolve.
fn resolve(
    resolution: &mut Resolution,
    axioms: &Formula,
    derived: &DerivedLines,
    chain: &[LineId],
) -> Result<(), NoMemory>
    requires sound { IsSound (log_of axioms.now derived.now) }
    requires named { All (IsLine (log_of axioms.now derived.now)) chain.now }
    requires resolves { Resolve (chain_of (log_of axioms.now derived.now) chain.now) }
    ensures resolved { OnOk result ((clause : List Literal) →
        ResolveTo (chain_of (log_of axioms.now derived.now) chain.now) clause
        ↔ SameLiterals resolution.new.clause clause) }
    ensures consistent { OnOk result (IsConsistent resolution.new.clause) }
{
    resolution.start(clause_in(axioms, derived, chain[0]))?;
    for i in 1..chain.len() {
        if !resolution.join(clause_in(axioms, derived, chain[i]))? {
            unreachable!();
        }
    }
    Ok(())
}

// Makes the clause the literals in the order of their variables.
fn ascending(clause: &mut Vec<Lit>, literals: &[Lit]) -> Result<(), NoMemory>
    requires { HasDistinctVariables literals.now }
    ensures same { OnOk result (SameLiterals literals.now clause.new.items) }
    ensures ascending { OnOk result (IsAscending clause.new.items) }
{
    clause.clear();
    clause.extend_from_slice(literals)?;
    clause.sort_unstable_by_key(|lit| lit.var());
    Ok(())
}

impl Log {
    /// A log without lines. It takes no memory.
    pub fn new(alloc: Global) -> Log
        ensures { result ≡ log_of [] [] }
    {
        Log {
            axioms: Formula::new(alloc),
            derived: DerivedLines::new(alloc),
            resolution: Resolution::new(alloc),
            clause: Vec::new(alloc),
        }
    }

    /// Adds an axiom. After an `Err` the log is unchanged.
    pub fn axiom(&mut self, lits: &[Lit]) -> Result<LineId, NoMemory>
        requires { HasDistinctVariables lits.now }
        ensures line { IfOk result (λ line. line ≡ axiom_id (length self.old.axioms + 1)) }
        ensures added { OnOk result (self.new ≡ log_of (self.old.axioms ++ lits.now ∷ []) self.old.derived) }
        ensures err { OnErr result (self.new ≡ self.old) }
    {
        self.axioms.push(lits)?;
        Ok(LineId {
            derived: false,
            number: self.axioms.len(),
        })
    }

    /// Adds the clause that the lines of the chain resolve to, its literals ascending by variable. After an
    /// `Err` the log is unchanged.
    pub fn derive(&mut self, chain: &[LineId]) -> Result<LineId, NoMemory>
        requires named { All (IsLine self.old) chain.now }
        requires resolves { Resolve (chain_of self.old chain.now) }
        ensures line { IfOk result (λ line. line ≡ derived_id (length self.old.derived + 1)) }
        ensures added { OnOk result (AddsDerived self.old chain.now self.new) }
        ensures err { OnErr result (self.new ≡ self.old) }
    {
        resolve(&mut self.resolution, &self.axioms, &self.derived, chain)?;
        ascending(&mut self.clause, self.resolution.literals())?;
        self.derived.push(&self.clause, chain)?;
        Ok(LineId {
            derived: true,
            number: self.derived.len(),
        })
    }

    // Adds a derived line that follows.
    pub(crate) fn add(&mut self, clause: &[Lit], hints: &[LineId]) -> Result<(), NoMemory>
        requires { Follows self.old (record { clause = clause.now; hints = hints.now }) }
        ensures { OnOk result (self.new
            ≡ log_of self.old.axioms (self.old.derived ++ record { clause = clause.now; hints = hints.now } ∷ [])) }
    {
        self.derived.push(clause, hints)?;
        Ok(())
    }

    /// The clause of a line.
    pub fn clause(&self, line: LineId) -> &[Lit]
        requires { IsLine self.now line }
        ensures { result.now ≡ clause_of self.now line }
    {
        clause_in(&self.axioms, &self.derived, line)
    }

    /// The lines that a line was derived from, in the order of resolution; none for an axiom.
    pub fn hints(&self, line: LineId) -> &[LineId]
        requires { IsLine self.now line }
        ensures { result.now ≡ hints_of self.now line }
    {
        if line.derived {
            self.derived.hints(line.number)
        } else {
            &[]
        }
    }

    /// How many axioms there are. That each derived line follows from the lines before it holds of every log.
    pub fn axioms(&self) -> u64
        ensures axioms { result ≡ length self.now.axioms }
        ensures sound { IsSound self.now }
    {
        self.axioms.len()
    }

    /// How many derived lines there are.
    pub fn derived(&self) -> u64
        ensures { result ≡ length self.now.derived }
    {
        self.derived.len()
    }

    /// A printer of the certificate with that head: its lines are the first so many derived ones, numbered on
    /// after the first so many axioms.
    pub fn printer(
        &self,
        alloc: Global,
        head: Head,
        axioms: u64,
        lines: u64,
    ) -> Result<Printer<'_>, NoMemory>
        requires { Covers self.now axioms lines }
        ensures { IfOk result (λ printer.
            printer ≡ certificate_text head axioms (first_lines self.now axioms lines)) }
    {
        let _sound = self.axioms();
        // Numbers past 64 bits would need more memory than a machine has.
        if axioms.checked_add(lines).is_none() {
            return Err(NoMemory);
        }
        Printer::of_words(alloc, Words::new(self, head, axioms, lines))
    }
}
