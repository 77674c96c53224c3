//! How lists are encoded of which at most so many may hold.

ghost use Rattle.std.specs.Prelude.{◌≡◌, ◌+◌, ◌<◌, ◌++◌, length, IfOk, OnOk, OnErr};
ghost use Rattle.at_most.specs.AtMost.{HasRoom, AddsPrefix};
ghost use Rattle.step_vars.specs.Limits.{limited, fresh_for, clauses_by, count_by, IsWithin};

use at_most::{AtMost, Pairwise, Sequential, Totalizer};
use qc_base::NoMemory;
use sat_base::{Formula, Lit};
use std::alloc::Global;

/// The encodings.
#[derive(Clone, Copy, Debug, PartialEq, Eq)]
pub enum Encoding {
    /// Clauses of pairs and of larger choices alone.
    Pairwise,
    /// Counters for lists of more than four.
    Counter,
}

impl Encoding {
    /// How many new variables the clauses of n literals and limit k have.
    #[tactic(auto, unfolding(crate::specs::Limits::fresh_for))]
    pub fn fresh(self, n: u32, k: u32) -> u32
        requires { IsWithin n k }
        ensures { result ≡ fresh_for self n k }
    {
        if k < n { self.fresh_below(n, k) } else { 0 }
    }

    // The same where the limit is below n.
    fn fresh_below(self, n: u32, k: u32) -> u32
        requires limit { IsWithin n k }
        requires below { k < n }
        ensures { result ≡ count_by self n k }
    {
        match self {
            Encoding::Pairwise => 0,
            Encoding::Counter => {
                if n <= 4 {
                    0
                } else if k == 1 {
                    Sequential.fresh(n, k)
                } else {
                    Totalizer.fresh(n, k)
                }
            }
        }
    }

    /// Adds the clauses that allow at most k of the literals, where there are more, with new variables from
    /// `next` on. Answers the next free number. After an `Err` a prefix of the clauses was added.
    #[tactic(auto, unfolding(crate::specs::Limits::limited, crate::specs::Limits::fresh_for))]
    pub fn emit(
        self,
        alloc: Global,
        lits: &[Lit],
        k: u32,
        next: u32,
        out: &mut Formula,
    ) -> Result<u32, NoMemory>
        requires limit { IsWithin (length lits.now) k }
        requires room { HasRoom lits.now next (fresh_for self (length lits.now) k) }
        ensures free { IfOk result (λ free. free ≡ next + fresh_for self (length lits.now) k) }
        ensures ok { OnOk result (out.new ≡ out.old ++ limited self lits.now k next) }
        ensures err { OnErr result (AddsPrefix out.old out.new (limited self lits.now k next)) }
    {
        if (k as usize) < lits.len() {
            self.emit_below(alloc, lits, k, next, out)
        } else {
            Ok(next)
        }
    }

    // The same where the limit is below the number of literals.
    fn emit_below(
        self,
        alloc: Global,
        lits: &[Lit],
        k: u32,
        next: u32,
        out: &mut Formula,
    ) -> Result<u32, NoMemory>
        requires limit { IsWithin (length lits.now) k }
        requires below { k < length lits.now }
        requires room { HasRoom lits.now next (count_by self (length lits.now) k) }
        ensures free { IfOk result (λ free. free ≡ next + count_by self (length lits.now) k) }
        ensures ok { OnOk result (out.new ≡ out.old ++ clauses_by self lits.now k next) }
        ensures err { OnErr result (AddsPrefix out.old out.new (clauses_by self lits.now k next)) }
    {
        match self {
            Encoding::Pairwise => Pairwise.emit(alloc, lits, k, next, out),
            Encoding::Counter => {
                if lits.len() <= 4 {
                    Pairwise.emit(alloc, lits, k, next, out)
                } else if k == 1 {
                    Sequential.emit(alloc, lits, k, next, out)
                } else {
                    Totalizer.emit(alloc, lits, k, next, out)
                }
            }
        }
    }
}
