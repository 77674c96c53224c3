//! Clauses of claims.

ghost use Rattle.std.specs.Prelude.{◌≡◌, [], ◌∷◌, ◌++◌, OnOk};

use qc_base::{Items, NoMemory};
use std::alloc::Global;
use std::marker::Model;
use step_vars::Claim;

/// Clauses of claims in order. Contracts see the list of the clauses, each of them the list of its claims.
#[derive(Debug, Drop)]
pub struct Clauses {
    alloc: Global,
    list: Vec<Items<Claim>>,
}

impl Model for Clauses {
    ghost use Rattle.std.specs.Prelude.{List};
    ghost use Rattle.step_vars.specs.declared.item.Claim.{Claim};

    ghost Value = { List (List Claim) };

    ghost view = { λ c. c.list.items };
}

impl Clauses {
    /// No clause.
    pub fn new(alloc: Global) -> Clauses
        ensures { result ≡ [] }
    {
        Clauses {
            alloc,
            list: Vec::new(alloc),
        }
    }

    /// Adds a clause at the end. An `Err` is out of memory; nothing is said of the clauses then.
    pub fn push(&mut self, claims: &[Claim]) -> Result<(), NoMemory>
        ensures { OnOk result (self.new ≡ self.old ++ claims.now ∷ []) }
    {
        let mut clause = Vec::new(self.alloc);
        clause.extend_from_slice(claims)?;
        self.list.push(Items::from_vec(clause))?;
        Ok(())
    }

    /// Adds a clause of these claims and then those. An `Err` is out of memory; nothing is said of the
    /// clauses then.
    pub fn push_both(&mut self, first: &[Claim], second: &[Claim]) -> Result<(), NoMemory>
        ensures { OnOk result (self.new ≡ self.old ++ (first.now ++ second.now) ∷ []) }
    {
        let mut clause = Vec::new(self.alloc);
        clause.extend_from_slice(first)?;
        clause.extend_from_slice(second)?;
        self.list.push(Items::from_vec(clause))?;
        Ok(())
    }

    /// The clauses.
    pub fn items(&self) -> &[Items<Claim>]
        ensures { result.now ≡ self.now }
    {
        self.list.as_slice()
    }
}
