//! The partial assignment, in the order in which it was made.

ghost use Rattle.std.specs.Prelude.{◌≡◌, ◌≢◌, ℕ, ◌+◌, ◌<◌, ◌≤◌, ◌^◌, Some, None, [], ◌∷◌, ◌++◌, length, take, slice_get, List, ◌↔◌, IsTrue, OnOk, OnErr};
ghost use Rattle.sat_base.specs.Literal.{negated};
ghost use Rattle.sat_base.specs.Clauses.{Has, EachVariable};
ghost use Rattle.solver_trail.specs.declared.values.Assigned.{Assigned};
ghost use Rattle.solver_trail.specs.Trail.{Trail, literals_of, up_to, back_to, value_in, last_level, IsFalseAt};
ghost use Rattle.solver_trail.specs.Trail.{level_after, assigned, AreInOrder};
ghost use Rattle.solver_trail.specs.Status.{HasTruth};

use derivation_log::LineId;
use qc_base::NoMemory;
use sat_base::Lit;
use std::alloc::Global;
use std::marker::Model;

/// An assigned literal, its level, and the line that forced it; none for a decision.
#[derive(Clone, Copy, Debug)]
pub struct Assigned {
    pub literal: Lit,
    pub level: u32,
    pub reason: Option<LineId>,
}

/// The partial assignment, in the order in which it was made. Contracts see its trail.
#[derive(Debug, Drop)]
pub struct Values {
    entries: Vec<Assigned>,
    level: u32,
    // For each variable its index among the entries, where it is assigned; the others mean nothing.
    places: Vec<usize>,
    // For each variable, the sign that it had last.
    signs: Vec<bool>,
}

impl Model for Values {
    ghost use Rattle.std.specs.Prelude.{length};
    ghost use Rattle.solver_trail.specs.Trail.{Trail};
    ghost use Rattle.solver_trail.specs.Storing.{AreStored};

    ghost Value = { Trail };

    ghost view = { λ v. record {
      vars = length v.places.items;
      level = v.level;
      entries = v.entries.items;
    } };

    ghost invariant = { λ v. AreStored v.entries v.level v.places.items (length v.signs.items) };
}

// The level of the next literal: a decision opens the next one.
fn level_after(level: u32, reason: Option<LineId>) -> u32
    requires { level + 1 < 2 ^ 32 }
    ensures { result ≡ level_after level reason }
{
    match reason {
        Some(_) => level,
        None => level + 1,
    }
}

// How many entries have a level up to that one; they come first.
fn count_up_to(entries: &[Assigned], level: u32) -> usize
    requires { AreInOrder [] entries.now }
    ensures { take result entries.now ≡ up_to level entries.now }
{
    let mut kept = entries.len();
    while kept > 0 {
        if entries[kept - 1].level <= level {
            break;
        }
        kept -= 1;
    }
    kept
}

impl Values {
    /// No variables.
    pub fn new(alloc: Global) -> Values
        ensures { result ≡ record { vars = 0; level = 0; entries = [] } }
    {
        Values {
            entries: Vec::new(alloc),
            level: 0,
            places: Vec::new(alloc),
            signs: Vec::new(alloc),
        }
    }

    /// Adds so many variables, unassigned.
    pub fn add_vars(&mut self, n: u32) -> Result<(), NoMemory>
        requires { self.old.vars + n < 2 ^ 31 }
        ensures ok { OnOk result (self.new ≡ record self.old { vars = self.old.vars + n }) }
        ensures err { OnErr result (self.new ≡ self.old) }
    {
        let vars = self.places.len() + n as usize;
        self.entries.reserve(vars - self.entries.len())?;
        self.signs.resize(vars, false)?;
        self.places.resize(vars, 0)?;
        Ok(())
    }

    /// How many variables there are.
    pub fn vars(&self) -> u32
        ensures vars { result ≡ self.now.vars }
        ensures below { result < 2 ^ 31 }
    {
        self.places.len() as u32
    }

    /// The value of a variable; none exactly where it is unassigned. It takes no memory.
    pub fn get(&self, var: u32) -> Option<bool>
        requires from_1 { 1 ≤ var }
        requires within { var ≤ self.now.vars }
        ensures { result ≡ value_in self.now.entries var }
    {
        let place = self.places[var as usize - 1];
        if place >= self.entries.len() {
            return None;
        }
        let literal = self.entries[place].literal;
        if literal.var() == var {
            Some(literal.positive())
        } else {
            None
        }
    }

    /// Whether a literal is true; none where it is unassigned.
    pub fn truth(&self, literal: Lit) -> Option<bool>
        requires { literal.var ≤ self.now.vars }
        ensures { HasTruth (literals_of self.now.entries) literal result }
    {
        let value = self.get(literal.var())?;
        Some(value == literal.positive())
    }

    /// Whether a literal is true.
    pub fn is_true(&self, literal: Lit) -> bool
        requires { literal.var ≤ self.now.vars }
        ensures { IsTrue result ↔ Has (literals_of self.now.entries) literal }
    {
        let _entries = &self.entries;
        match self.truth(literal) {
            Some(true) => true,
            Some(false) => false,
            None => false,
        }
    }

    /// Whether a literal is true, where its variable is one of these; else the answer is no.
    pub fn has_true(&self, literal: Lit) -> bool
        ensures yes { IsTrue result → Has (literals_of self.now.entries) literal }
        ensures no { literal.var ≤ self.now.vars → Has (literals_of self.now.entries) literal → IsTrue result }
    {
        literal.var() <= self.vars() && self.is_true(literal)
    }

    /// The current level.
    pub fn level(&self) -> u32
        ensures { result ≡ self.now.level }
    {
        self.level
    }

    /// The assigned literals, in order.
    pub fn entries(&self) -> &[Assigned]
        ensures entries { result.now ≡ self.now.entries }
        ensures few { length self.now.entries ≤ self.now.vars }
        ensures named { EachVariable (λ var. (1 ≤ var) × (var ≤ self.now.vars))
            (literals_of self.now.entries) }
        ensures order { AreInOrder [] self.now.entries }
        ensures level { self.now.level ≡ last_level self.now.entries }
    {
        &self.entries
    }

    /// The index of a true literal on the trail.
    pub fn place(&self, literal: Lit) -> usize
        requires { Has (literals_of self.now.entries) literal }
        ensures { (entry : Assigned) ×
            ((slice_get self.now.entries result ≡ Some entry) × (entry.literal ≡ literal)) }
    {
        self.places[literal.var() as usize - 1]
    }

    /// The level of a false literal.
    pub fn level_of(&self, literal: Lit) -> u32
        requires { Has (literals_of self.now.entries) (negated literal) }
        ensures at { IsFalseAt self.now.entries result literal }
        ensures only { (level : ℕ) → IsFalseAt self.now.entries level literal → level ≡ result }
    {
        self.entries[self.place(literal.negated())].level
    }

    /// Whether a literal is false at that level.
    pub fn is_false_at(&self, literal: Lit, level: u32) -> bool
        requires { literal.var ≤ self.now.vars }
        ensures { IsTrue result ↔ IsFalseAt self.now.entries level literal }
    {
        let _entries = &self.entries;
        match self.truth(literal) {
            Some(false) => self.level_of(literal) == level,
            Some(true) => false,
            None => false,
        }
    }

    /// The literal of that variable with the sign that it had last.
    pub fn as_before(&self, var: u32) -> Lit
        requires from_1 { 1 ≤ var }
        requires within { var ≤ self.now.vars }
        ensures { result.var ≡ var }
    {
        Lit::new(var, self.signs[var as usize - 1])
    }

    /// Puts a literal on the trail, by the line that forces it; at the next level where it is a decision.
    pub fn assign(&mut self, literal: Lit, reason: Option<LineId>)
        requires within { literal.var ≤ self.old.vars }
        requires unassigned { value_in self.old.entries literal.var ≡ None }
        ensures { self.new ≡ assigned self.old literal reason }
    {
        let level = level_after(self.level, reason);
        let index = literal.var() as usize - 1;
        self.places[index] = self.entries.len();
        self.signs[index] = literal.positive();
        self.level = level;
        self.entries.push_reserved(Assigned {
            literal,
            level,
            reason,
        });
    }

    /// Goes back to that level.
    pub fn backjump(&mut self, level: u32)
        requires { level ≤ self.old.level }
        ensures trail { self.new ≡ back_to level self.old }
        ensures front { (rest : List Assigned) × (self.old.entries ≡ self.new.entries ++ rest) }
    {
        let kept = count_up_to(&self.entries, level);
        self.entries.truncate(kept);
        self.level = level;
    }
}
