//! Lists of clauses.

ghost use Rattle.std.specs.Prelude.{◌≡◌, ◌≤◌, [], ◌∷◌, ◌++◌, ◌↔◌, ◌<◌, IsTrue, length, slice_index, slice_index_or, OnOk, OnErr};
ghost use Rattle.sat_base.specs.Clauses.{HasDistinctVariables, clause_at};
ghost use Rattle.sat_base.specs.Pieces.{pieces, AreEnds};

use crate::lit::Lit;
use qc_base::NoMemory;
use std::alloc::Global;
use std::marker::Model;

/// Clauses in order, none of which has a variable twice. Contracts see the list of the clauses, each of them
/// the list of its literals.
#[derive(Debug, Drop)]
pub struct Formula {
    // The literals of all clauses, and where each clause ends among them.
    lits: Vec<Lit>,
    ends: Vec<usize>,
}

impl Model for Formula {
    ghost use Rattle.std.specs.Prelude.{List, length};
    ghost use Rattle.sat_base.specs.Literal.{Literal};
    ghost use Rattle.sat_base.specs.Clauses.{HaveDistinctVariables};
    ghost use Rattle.sat_base.specs.Pieces.{pieces, AreEnds};

    ghost Value = { List (List Literal) };

    ghost view = { λ f. pieces 0 f.ends.items f.lits.items };

    ghost invariant = { λ f. AreEnds 0 f.ends.items (length f.lits.items)
        × HaveDistinctVariables (pieces 0 f.ends.items f.lits.items) };
}

// Where the part of that index begins.
#[tactic(auto, using(crate::proofs::Parts::after_first))]
fn start_of(ends: &[usize], index: usize) -> usize
    requires { index < length ends.now }
    ensures { result ≡ slice_index (0 ∷ ends.now) index }
{
    if index == 0 { 0 } else { ends[index - 1] }
}

// Where the part of that index begins, and where it ends.
#[tactic(auto, using(crate::proofs::Parts::part_within))]
fn bounds(ends: &[usize], index: usize, whole: usize) -> (usize, usize)
    requires ends { AreEnds 0 ends.now whole }
    requires within { index < length ends.now }
    ensures start { result.0 ≡ slice_index (0 ∷ ends.now) index }
    ensures end { result.1 ≡ slice_index ends.now index }
    ensures order { result.0 ≤ result.1 }
    ensures room { result.1 ≤ whole }
{
    (start_of(ends, index), ends[index])
}

// The part of that index.
#[tactic(auto, using(crate::proofs::Parts::piece_at))]
fn part<'a>(lits: &'a [Lit], ends: &[usize], index: usize) -> &'a [Lit]
    requires ends { AreEnds 0 ends.now (length lits.now) }
    requires within { index < length ends.now }
    ensures { result.now ≡ slice_index_or (pieces 0 ends.now lits.now) index [] }
{
    let (start, end) = bounds(ends, index, lits.len());
    &lits[start..end]
}

impl Formula {
    /// No clause.
    pub fn new(alloc: Global) -> Formula
        ensures { result ≡ [] }
    {
        Formula {
            lits: Vec::new(alloc),
            ends: Vec::new(alloc),
        }
    }

    /// Adds a clause at the end. After an `Err` nothing changed.
    pub fn push(&mut self, lits: &[Lit]) -> Result<(), NoMemory>
        requires { HasDistinctVariables lits.now }
        ensures ok { OnOk result (self.new ≡ self.old ++ lits.now ∷ []) }
        ensures err { OnErr result (self.new ≡ self.old) }
    {
        self.ends.reserve(1)?;
        self.lits.extend_from_slice(lits)?;
        self.ends.push(self.lits.len())?;
        Ok(())
    }

    /// How many clauses there are.
    pub fn len(&self) -> u64
        ensures { result ≡ length self.now }
    {
        self.ends.len() as u64
    }

    /// Whether there is no clause.
    pub fn is_empty(&self) -> bool
        ensures { IsTrue result ↔ (length self.now ≡ 0) }
    {
        self.len() == 0
    }

    /// The clause of that number, counted from 1.
    pub fn clause(&self, k: u64) -> &[Lit]
        requires from_1 { 1 ≤ k }
        requires within { k ≤ length self.now }
        ensures clause { result.now ≡ clause_at self.now k }
        ensures distinct { HasDistinctVariables result.now }
    {
        part(&self.lits, &self.ends, k as usize - 1)
    }
}
