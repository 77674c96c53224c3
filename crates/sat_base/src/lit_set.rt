//! Sets of literals.

ghost use Rattle.std.specs.Prelude.{◌≡◌, ◌<◌, ◌^◌, List, [], ◌↔◌, IsTrue, length, slice_get, Some, IfSome, IfNone, OnOk, OnErr};
ghost use Rattle.sat_base.specs.Literal.{Literal};
ghost use Rattle.sat_base.specs.Clauses.{Has};
ghost use Rattle.sat_base.specs.LitSet.{AreDistinct, Adds, Loses, AddsAll, AddsOthers, code_of, ArePlaced};

use crate::lit::Lit;
use qc_base::NoMemory;
use std::alloc::Global;
use std::marker::Model;

/// A set of literals, in which a literal is found, added and taken out in constant time. It keeps two words for
/// each variable up to the largest that it ever had. Contracts see the list of its literals.
#[derive(Debug, Drop)]
pub struct LitSet {
    members: Vec<Lit>,
    // For the code of each member, its index among them; the other entries mean nothing.
    places: Vec<usize>,
}

impl Model for LitSet {
    ghost use Rattle.std.specs.Prelude.{List};
    ghost use Rattle.sat_base.specs.Literal.{Literal};
    ghost use Rattle.sat_base.specs.LitSet.{ArePlaced};

    ghost Value = { List Literal };

    ghost view = { λ s. s.members.items };

    ghost invariant = { λ s. ArePlaced s.members.items s.places.items };
}

// Twice the variable, and one more where it is negated.
fn code_of(lit: Lit) -> usize
    ensures code { result ≡ code_of lit }
    ensures small { result < 2 ^ 33 }
{
    let sign = if lit.positive() { 0 } else { 1 };
    2 * lit.var() as usize + sign
}

// The index of the literal among the members.
fn place_of(members: &[Lit], places: &[usize], lit: Lit) -> Option<usize>
    requires { ArePlaced members.now places.now }
    ensures found { IfSome result (λ place. slice_get members.now place ≡ Some lit) }
    ensures none { IfNone result (Has members.now lit → ⊥) }
{
    let code = code_of(lit);
    if code >= places.len() {
        return None;
    }
    let place = places[code];
    if place < members.len() && members[place] == lit {
        Some(place)
    } else {
        None
    }
}

// Makes the table long enough for that code.
fn make_room(places: &mut Vec<usize>, code: usize) -> Result<(), NoMemory>
    requires { code < 2 ^ 33 }
    ensures room { OnOk result (code < length places.new.items) }
    ensures same { (members : List Literal) → ArePlaced members places.old.items
        → ArePlaced members places.new.items }
{
    if code >= places.len() {
        places.resize(code + 1, 0)?;
    }
    Ok(())
}

impl LitSet {
    /// The empty set.
    pub fn new(alloc: Global) -> LitSet
        ensures { result ≡ [] }
    {
        LitSet {
            members: Vec::new(alloc),
            places: Vec::new(alloc),
        }
    }

    /// The literals of the set, none twice.
    pub fn members(&self) -> &[Lit]
        ensures members { result.now ≡ self.now }
        ensures distinct { AreDistinct self.now }
    {
        &self.members
    }

    /// Whether the literal is in the set.
    pub fn has(&self, lit: Lit) -> bool
        ensures { IsTrue result ↔ Has self.now lit }
    {
        place_of(&self.members, &self.places, lit).is_some()
    }

    /// Adds the literal, unless it is there.
    pub fn insert(&mut self, lit: Lit) -> Result<(), NoMemory>
        ensures ok { OnOk result (Adds self.old lit self.new) }
        ensures err { OnErr result (self.new ≡ self.old) }
    {
        if self.has(lit) {
            return Ok(());
        }
        let code = code_of(lit);
        make_room(&mut self.places, code)?;
        let place = self.members.len();
        self.members.push(lit)?;
        self.places[code] = place;
        Ok(())
    }

    /// Adds the literals of a clause, as far as they are not there. After an `Err` some of them may be added.
    pub fn add_all(&mut self, clause: &[Lit]) -> Result<(), NoMemory>
        ensures { OnOk result (AddsAll self.old clause.now self.new) }
    {
        for &lit in clause {
            self.insert(lit)?;
        }
        Ok(())
    }

    /// Adds the literals of a clause but that one. After an `Err` some of them may be added.
    pub fn add_others(&mut self, clause: &[Lit], but: Lit) -> Result<(), NoMemory>
        ensures { OnOk result (AddsOthers self.old clause.now but self.new) }
    {
        for &lit in clause {
            if lit != but {
                self.insert(lit)?;
            }
        }
        Ok(())
    }

    /// Takes the literal out, where it is there. The order of the others may change.
    pub fn remove(&mut self, lit: Lit)
        ensures { Loses self.old lit self.new }
    {
        let Some(place) = place_of(&self.members, &self.places, lit) else {
            return;
        };
        self.members.swap_remove(place);
        if place < self.members.len() {
            let code = code_of(self.members[place]);
            self.places[code] = place;
        }
    }

    /// Takes all literals out.
    pub fn clear(&mut self)
        ensures { self.new ≡ [] }
    {
        self.members.clear();
    }
}
