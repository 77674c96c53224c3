//! What names mean in a program.

ghost use Rattle.std.specs.Prelude.{◌≡◌, ◌+◌, ◌<◌, ◌≤◌, ℕ, length, Some, None, true, false, [], IfOk, OnOk};
ghost use Rattle.gate_names.specs.Causes.{Gives};
ghost use Rattle.gate_names.specs.Entries.{meaning_in};
ghost use Rattle.gate_names.specs.GateOrder.{CallsBelow};
ghost use Rattle.gate_names.specs.Library.{built_in};
ghost use Rattle.gate_names.specs.Names.{meaning_of, fresh, gate_named, creg_named, named, with_gate, IsRegister};

use crate::cause::Cause;
use crate::gate::Gate;
use crate::gates::Gates;
use crate::library::{built_in, library_gate_named};
use crate::names::{Meaning, Names};
use qc_base::{Name, NoMemory};
use std::alloc::Global;
use std::marker::Model;

/// The names that the file declared, whether it included the library, and all gates by their numbers.
#[derive(Drop)]
pub struct Table {
    names: Names,
    included: bool,
    gates: Gates,
}

impl Model for Table {
    ghost use Rattle.gate_names.specs.contracts.term.Term as term;
    ghost use Rattle.gate_names.specs.Entries.{Table as TableValue, IsTable};
    ghost use Rattle.std.specs.Coded.{codes};

    ghost Value = { TableValue };

    ghost coded = { Prim.hlevel (codes, term.the_row.coded) };

    ghost view = { λ t. record { names = t.names; included = t.included; gates = t.gates } };

    ghost invariant = { λ t. IsTable (record { names = t.names; included = t.included; gates = t.gates }) };
}

impl Table {
    /// No name is declared.
    pub fn new(alloc: Global) -> Result<Table, NoMemory>
        ensures { IfOk result (λ table. table ≡ record { names = []; included = false; gates = built_in }) }
    {
        Ok(Table {
            names: Names::new(alloc),
            included: false,
            gates: built_in(alloc)?,
        })
    }

    /// The gates.
    pub fn gates(&self) -> &Gates
        ensures gates { result.now ≡ self.now.gates }
        ensures start { 36 ≤ length self.now.gates }
    {
        &self.gates
    }

    /// Includes the library.
    pub fn include(&mut self)
        ensures { self.new ≡ record self.old { included = true } }
    {
        self.included = true;
    }

    /// Declares a register.
    pub fn declare_register(
        &mut self,
        alloc: Global,
        name: &Name,
        meaning: Meaning,
    ) -> Result<(), NoMemory>
        requires new { meaning_in self.old.names name.now ≡ None }
        requires register { IsRegister meaning }
        ensures { OnOk result (self.new ≡ named self.old name.now meaning) }
    {
        self.names.declare(alloc, name, meaning)
    }

    /// Declares a gate, which has the next number.
    pub fn declare_gate(&mut self, alloc: Global, name: &Name, gate: Gate) -> Result<(), NoMemory>
        requires new { meaning_in self.old.names name.now ≡ None }
        requires below { CallsBelow (length self.old.gates) gate }
        ensures { OnOk result (self.new ≡ with_gate self.old name.now gate) }
    {
        let number = self.gates.items().len();
        self.gates.push(gate)?;
        self.names.declare(alloc, name, Meaning::Gate(number))
    }

    /// What a name means.
    pub fn meaning(&self, name: &Name) -> Option<Meaning>
        ensures meaning { result ≡ meaning_of self.now name.now }
        ensures known { (number : ℕ) → result ≡ Some (Meaning.Gate number) → number < length self.now.gates }
    {
        if let Some(meaning) = self.names.get(name) {
            return Some(meaning);
        }
        if !self.included {
            return None;
        }
        Some(Meaning::Gate(library_gate_named(name)?))
    }

    /// Whether the file did not declare the name.
    pub fn fresh(&self, name: &Name) -> Result<(), Cause>
        ensures { Gives (λ u. u) result (fresh self.now name.now) }
    {
        match self.names.get(name) {
            Some(_) => Err(Cause::Redeclared),
            None => Ok(()),
        }
    }

    /// The gate of that name.
    pub fn gate_named(&self, name: &Name) -> Result<usize, Cause>
        ensures gate { Gives (λ number. number) result (gate_named self.now name.now) }
        ensures known { IfOk result (λ number. number < length self.now.gates) }
    {
        match self.meaning(name) {
            Some(Meaning::Gate(number)) => Ok(number),
            Some(_) => Err(Cause::Kind),
            None => Err(Cause::Undeclared),
        }
    }

    /// The classical register of that name.
    pub fn creg_named(&self, name: &Name) -> Result<u16, Cause>
        ensures { Gives (λ creg. creg) result (creg_named self.now name.now) }
    {
        match self.meaning(name) {
            Some(Meaning::Classical { creg, .. }) => Ok(creg),
            Some(_) => Err(Cause::Kind),
            None => Err(Cause::Undeclared),
        }
    }
}
