//! The clauses that a line of LRAT may name.

ghost use Rattle.std.specs.Prelude.{◌≡◌, ◌≢◌, ℕ, ◌<◌, ◌≤◌, [], length, slice_index, IfSome, IfNone, OnOk, OnErr, All};
ghost use Rattle.sat_base.specs.Clauses.{HasDistinctVariables};
ghost use Rattle.lrat_out.specs.Lines.{IsNumber, clause_named, last_number, hand_of, after};
ghost use Rattle.lrat_out.specs.Proof.{RiseAbove, proof_line_of};

use qc_base::NoMemory;
use sat_base::{Formula, Lit};
use std::alloc::Global;
use std::marker::Model;

/// A formula, and the lines of a proof over it so far. Contracts see both, the lines with their numbers.
#[derive(Debug, Drop)]
pub struct Proof<'a> {
    formula: &'a Formula,
    // The clauses of the lines, and their numbers, which rise.
    clauses: Formula,
    numbers: Vec<u64>,
}

impl<'a> Model for Proof<'a> {
    ghost use Rattle.std.specs.Prelude.{◌≡◌, ◌<◌, ◌^◌, length};
    ghost use Rattle.lrat_out.specs.Lines.{Hand};
    ghost use Rattle.lrat_out.specs.Proof.{numbered, RiseAbove};

    ghost Value = { Hand };

    ghost view = { λ p. record { formula = p.formula.now; lines = numbered p.numbers.items p.clauses } };

    ghost invariant = { λ p. (length p.numbers.items ≡ length p.clauses)
        × RiseAbove (length p.formula.now) p.numbers.items };
}

// Where the number is among numbers that rise.
fn searched(numbers: &[u64], above: u64, number: u64) -> Option<usize>
    requires { RiseAbove above numbers.now }
    ensures found { IfSome result (λ index. (index < length numbers.now) × (slice_index numbers.now index ≡ number)) }
    ensures none { IfNone result (All (λ other. other ≢ number) numbers.now) }
{
    match numbers.binary_search(&number) {
        Ok(index) => Some(index),
        Err(_) => None,
    }
}

// The same, in constant time where no number is left out from above on.
fn index_of(numbers: &[u64], above: u64, number: u64) -> Option<usize>
    requires { RiseAbove above numbers.now }
    ensures found { IfSome result (λ index. (index < length numbers.now) × (slice_index numbers.now index ≡ number)) }
    ensures none { IfNone result (All (λ other. other ≢ number) numbers.now) }
{
    if above < number {
        let guess = number - above - 1;
        if guess < numbers.len() as u64 && numbers[guess as usize] == number {
            return Some(guess as usize);
        }
    }
    searched(numbers, above, number)
}

impl<'a> Proof<'a> {
    /// A formula, and no line.
    pub fn new(alloc: Global, formula: &'a Formula) -> Proof<'a>
        ensures { result ≡ hand_of formula.now }
    {
        Proof {
            formula,
            clauses: Formula::new(alloc),
            numbers: Vec::new(alloc),
        }
    }

    /// The greatest number; all numbers in hand are from 1 up to it.
    pub fn last(&self) -> u64
        ensures last { result ≡ last_number self.now }
        ensures all { (number : ℕ) → IsNumber self.now number → (1 ≤ number) × (number ≤ result) }
    {
        match self.numbers.last() {
            Some(number) => *number,
            None => self.formula.len(),
        }
    }

    /// The clause of that number.
    pub fn clause_of(&self, number: u64) -> Option<&[Lit]>
        ensures found { IfSome result (λ clause. IsNumber self.now number) }
        ensures clause { IfSome result (λ clause. clause.now ≡ clause_named self.now number) }
        ensures distinct { IfSome result (λ clause. HasDistinctVariables clause.now) }
        ensures none { IfNone result (IsNumber self.now number → ⊥) }
    {
        let axioms = self.formula.len();
        if number == 0 {
            return None;
        }
        if number <= axioms {
            return Some(self.formula.clause(number));
        }
        let index = index_of(&self.numbers, axioms, number)?;
        Some(self.clauses.clause(index as u64 + 1))
    }

    /// Adds a line. After an `Err` nothing changed.
    pub fn push(&mut self, number: u64, clause: &[Lit]) -> Result<(), NoMemory>
        requires above { last_number self.old < number }
        requires distinct { HasDistinctVariables clause.now }
        ensures ok { OnOk result (self.new ≡ after self.old (proof_line_of number clause.now [])) }
        ensures err { OnErr result (self.new ≡ self.old) }
    {
        self.numbers.reserve(1)?;
        self.clauses.push(clause)?;
        self.numbers.push(number)?;
        Ok(())
    }
}
