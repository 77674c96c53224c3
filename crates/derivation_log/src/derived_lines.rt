//! Derived lines.

ghost use Rattle.std.specs.Prelude.{◌≡◌, ◌-◌, ◌<◌, ◌≤◌, [], ◌∷◌, ◌++◌, length, slice_index, slice_index_or, OnOk, OnErr};
ghost use Rattle.sat_base.specs.Clauses.{HasDistinctVariables, clause_at};
ghost use Rattle.sat_base.specs.Pieces.{pieces, AreEnds};
ghost use Rattle.derivation_log.specs.Log.{clauses_of, hints_in};

use crate::line_id::LineId;
use qc_base::NoMemory;
use sat_base::{Formula, Lit};
use std::alloc::Global;
use std::marker::Model;

/// Derived lines in order. Contracts see the list of them.
#[derive(Debug, Drop)]
pub struct DerivedLines {
    clauses: Formula,
    // The hints of all lines, and where those of each line end among them.
    hints: Vec<LineId>,
    ends: Vec<usize>,
}

impl Model for DerivedLines {
    ghost use Rattle.std.specs.Prelude.{◌≡◌, List, length};
    ghost use Rattle.sat_base.specs.Pieces.{pieces, AreEnds};
    ghost use Rattle.derivation_log.specs.Log.{Derived};
    ghost use Rattle.derivation_log.specs.DerivedLines.{lines_of};

    ghost Value = { List Derived };

    ghost view = { λ d. lines_of d.clauses (pieces 0 d.ends.items d.hints.items) };

    ghost invariant = { λ d. AreEnds 0 d.ends.items (length d.hints.items)
        × (length d.clauses ≡ length d.ends.items) };
}

// Where the hints of the line of that index begin.
#[tactic(auto, using(sat_base::proofs::Parts::after_first))]
fn start_of(ends: &[usize], index: usize) -> usize
    requires { index < length ends.now }
    ensures { result ≡ slice_index (0 ∷ ends.now) index }
{
    if index == 0 { 0 } else { ends[index - 1] }
}

// Where the hints of the line of that index begin, and where they end.
#[tactic(auto, using(sat_base::proofs::Parts::part_within))]
fn bounds(ends: &[usize], index: usize, whole: usize) -> (usize, usize)
    requires ends { AreEnds 0 ends.now whole }
    requires within { index < length ends.now }
    ensures start { result.0 ≡ slice_index (0 ∷ ends.now) index }
    ensures end { result.1 ≡ slice_index ends.now index }
    ensures order { result.0 ≤ result.1 }
    ensures room { result.1 ≤ whole }
{
    (start_of(ends, index), ends[index])
}

// The hints of the line of that index.
#[tactic(auto, using(sat_base::proofs::Parts::piece_at))]
fn hints_at<'a>(hints: &'a [LineId], ends: &[usize], index: usize) -> &'a [LineId]
    requires ends { AreEnds 0 ends.now (length hints.now) }
    requires within { index < length ends.now }
    ensures { result.now ≡ slice_index_or (pieces 0 ends.now hints.now) index [] }
{
    let (start, end) = bounds(ends, index, hints.len());
    &hints[start..end]
}

impl DerivedLines {
    /// No line. It takes no memory.
    pub fn new(alloc: Global) -> DerivedLines
        ensures { result ≡ [] }
    {
        DerivedLines {
            clauses: Formula::new(alloc),
            hints: Vec::new(alloc),
            ends: Vec::new(alloc),
        }
    }

    /// Adds a line at the end. After an `Err` nothing changed.
    pub fn push(&mut self, clause: &[Lit], hints: &[LineId]) -> Result<(), NoMemory>
        requires { HasDistinctVariables clause.now }
        ensures ok { OnOk result (self.new ≡ self.old ++ record { clause = clause.now; hints = hints.now } ∷ []) }
        ensures err { OnErr result (self.new ≡ self.old) }
    {
        self.hints.reserve(hints.len())?;
        self.ends.reserve(1)?;
        self.clauses.push(clause)?;
        self.hints.extend_from_slice(hints)?;
        self.ends.push(self.hints.len())?;
        Ok(())
    }

    /// How many lines there are.
    pub fn len(&self) -> u64
        ensures { result ≡ length self.now }
    {
        self.clauses.len()
    }

    /// The clause of the line of that number, counted from 1.
    pub fn clause(&self, number: u64) -> &[Lit]
        requires from_1 { 1 ≤ number }
        requires within { number ≤ length self.now }
        ensures { result.now ≡ clause_at (clauses_of self.now) number }
    {
        self.clauses.clause(number)
    }

    /// The hints of the line of that number, counted from 1.
    pub fn hints(&self, number: u64) -> &[LineId]
        requires from_1 { 1 ≤ number }
        requires within { number ≤ length self.now }
        ensures { result.now ≡ slice_index_or (hints_in self.now) (number - 1) [] }
    {
        hints_at(&self.hints, &self.ends, number as usize - 1)
    }
}
