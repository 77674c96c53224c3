//! Resolving clauses, one after another.

ghost use Rattle.std.specs.Prelude.{◌≡◌, [], ◌↔◌, IsTrue, IfOk, OnOk, IfSome, IfNone, MatchBool};
ghost use Rattle.sat_base.specs.Literal.{Literal};
ghost use Rattle.sat_base.specs.Clauses.{SameLiterals, HasDistinctVariables};
ghost use Rattle.sat_base.specs.Resolution.{IsOnlyClash, Begins, Joins, IsRefused};
ghost use Rattle.sat_base.specs.Fresh.{IsConsistent, IsOpen};

use crate::lit::Lit;
use crate::lit_set::LitSet;
use qc_base::NoMemory;
use std::alloc::Global;
use std::marker::Model;

/// The clause so far of a resolution, and the pivots that were taken out.
#[derive(Debug, Drop)]
pub struct Resolution {
    clause: LitSet,
    taken: LitSet,
}

impl Model for Resolution {
    ghost use Rattle.sat_base.specs.Resolution.{SoFar};

    ghost Value = { SoFar };

    ghost view = { λ r. record { clause = r.clause; taken = r.taken } };
}

// The only literal of the hint whose negation is in the set.
fn only_clash(so_far: &LitSet, hint: &[Lit]) -> Option<Lit>
    ensures found { IfSome result (IsOnlyClash so_far.now hint.now) }
    ensures none { IfNone result ((pivot : Literal) → IsOnlyClash so_far.now hint.now pivot → ⊥) }
{
    let mut clash: Option<Lit> = None;
    for &lit in hint {
        if so_far.has(lit.negated()) {
            if let Some(first) = clash {
                if first != lit {
                    return None;
                }
            }
            clash = Some(lit);
        }
    }
    clash
}

// Whether the variable of the literal is not in the set.
fn is_open(set: &LitSet, lit: Lit) -> bool
    ensures { IsTrue result ↔ IsOpen set.now lit }
{
    if set.has(lit) {
        return false;
    }
    !set.has(lit.negated())
}

// Takes the literals of the clause out of the set, as far as they are there; whether both had the same ones.
fn take_all(set: &mut LitSet, clause: &[Lit]) -> bool
    requires { HasDistinctVariables clause.now }
    ensures { IsTrue result ↔ SameLiterals set.old clause.now }
{
    for &lit in clause {
        if !set.has(lit) {
            return false;
        }
        set.remove(lit);
    }
    set.members().is_empty()
}

impl Resolution {
    /// An empty clause so far, from which nothing is resolved before a start.
    pub fn new(alloc: Global) -> Resolution
        ensures { result ≡ record { clause = []; taken = [] } }
    {
        Resolution {
            clause: LitSet::new(alloc),
            taken: LitSet::new(alloc),
        }
    }

    /// Begins anew with the clause of the first hint. After an `Err` it has to begin anew once more.
    pub fn start(&mut self, first: &[Lit]) -> Result<(), NoMemory>
        ensures begins { OnOk result (Begins first.now self.new) }
        ensures consistent { OnOk result (IsConsistent first.now → IsConsistent self.new.clause) }
    {
        self.clause.clear();
        self.taken.clear();
        self.clause.add_all(first)
    }

    /// Joins the clause of a further hint where it has exactly one clash, of a variable that was not taken out
    /// before, and answers whether it has. Otherwise, and after an `Err`, it has to begin anew.
    pub fn join(&mut self, hint: &[Lit]) -> Result<bool, NoMemory>
        ensures joins { IfOk result (λ joins.
            MatchBool joins (Joins self.old hint.now self.new) (IsRefused self.old hint.now)) }
        ensures consistent { IfOk result (λ joins. IsTrue joins
            → IsConsistent self.old.clause → IsConsistent hint.now → IsConsistent self.new.clause) }
    {
        let Some(pivot) = only_clash(&self.clause, hint) else {
            return Ok(false);
        };
        if !is_open(&self.taken, pivot) {
            return Ok(false);
        }
        self.taken.insert(pivot)?;
        self.clause.remove(pivot.negated());
        self.clause.add_others(hint, pivot)?;
        Ok(true)
    }

    /// The literals of the clause so far.
    pub fn literals(&self) -> &[Lit]
        ensures literals { result.now ≡ self.now.clause }
        ensures distinct { IsConsistent self.now.clause → HasDistinctVariables self.now.clause }
    {
        self.clause.members()
    }

    /// Whether the clause so far has the same literals as the clause. It uses the clause so far up.
    pub fn gives(&mut self, clause: &[Lit]) -> bool
        requires { HasDistinctVariables clause.now }
        ensures { IsTrue result ↔ SameLiterals self.old.clause clause.now }
    {
        take_all(&mut self.clause, clause)
    }
}
