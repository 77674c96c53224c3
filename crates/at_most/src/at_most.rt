//! What each encoding has to do.

ghost use Rattle.std.specs.Prelude.{◌≡◌, ℕ, ◌+◌, List, ◌++◌, length, IfOk, OnOk, OnErr};
ghost use Rattle.sat_base.specs.Literal.{Literal};
ghost use Rattle.at_most.specs.AtMost.{IsLimit, HasRoom, Limits, AddsPrefix};

use qc_base::NoMemory;
use sat_base::{Formula, Lit};
use std::alloc::Global;

/// An encoding of 'at most k of these literals are true' by clauses.
pub trait AtMost {
    // How many new variables the clauses for n literals and limit k have.
    ghost fresh_count: { ℕ → ℕ → ℕ };

    // The clauses for the literals and limit k, with new variables from next on.
    ghost clauses: { List Literal → ℕ → ℕ → List (List Literal) };

    /// How many new variables `emit` takes for n literals and limit k.
    fn fresh(&self, n: u32, k: u32) -> u32
        requires { IsLimit n k }
        ensures { result ≡ fresh_count n k };

    /// Adds the clauses to `out`, with new variables from `next` on, and answers the next free number.
    /// After an `Err` `out` has a prefix of them.
    fn emit(
        &self,
        alloc: Global,
        lits: &[Lit],
        k: u32,
        next: u32,
        out: &mut Formula,
    ) -> Result<u32, NoMemory>
        requires limit { IsLimit (length lits.now) k }
        requires room { HasRoom lits.now next (fresh_count (length lits.now) k) }
        ensures free { IfOk result (λ free. free ≡ next + fresh_count (length lits.now) k) }
        ensures ok { OnOk result (out.new ≡ out.old ++ clauses lits.now k next) }
        ensures err { OnErr result (AddsPrefix out.old out.new (clauses lits.now k next)) }
        ensures limits { let end = next + fresh_count (length lits.now) k in
            Limits k lits.now next end (clauses lits.now k next) };
}
