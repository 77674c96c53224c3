//! Clauses of claims as clauses of literals.

ghost use Rattle.std.specs.Prelude.{◌≡◌, ◌+◌, ◌≤◌, ◌^◌, [], ◌∷◌, ◌++◌, IfOk, OnOk, OnErr};
ghost use Rattle.std.specs.List.{AllByRecursion};
ghost use Rattle.at_most.specs.AtMost.{AddsPrefix};
ghost use Rattle.step_vars.specs.Encoding.{clause_of, clauses_of, literals_of, helper_count};
ghost use Rattle.clause_families.specs.Encoded.{IsEncoded, IsEncodedClause, AreEncodedClauses, AreEncodedBounds, IsEncodedBound, bound_clauses};

use qc_base::{Items, NoMemory};
use sat_base::{Formula, Lit};
use std::alloc::Global;
use step_vars::{Bound, Claim, Item, Vars};

// The literals of claims.
fn literals(alloc: Global, vars: &Vars, claims: &[Claim]) -> Result<Vec<Lit>, NoMemory>
    requires { IsEncodedClause vars.now claims.now }
    ensures { IfOk result (λ lits. lits.items ≡ clause_of vars.now.numbering claims.now) }
{
    let mut lits = Vec::new(alloc);
    for claim in claims {
        lits.push(vars.lit(claim))?;
    }
    Ok(lits)
}

// Adds a clause.
fn push_clause(
    alloc: Global,
    vars: &Vars,
    claims: &[Claim],
    out: &mut Formula,
) -> Result<(), NoMemory>
    requires { IsEncodedClause vars.now claims.now }
    ensures ok { OnOk result (out.new ≡ out.old ++ clause_of vars.now.numbering claims.now ∷ []) }
    ensures err { OnErr result (out.new ≡ out.old) }
{
    let lits = literals(alloc, vars, claims)?;
    out.push(&lits)
}

/// Adds each clause as the literals of its claims. After an `Err`, which is out of memory, a prefix of them
/// was added.
pub fn push_clauses(
    alloc: Global,
    vars: &Vars,
    clauses: &[Items<Claim>],
    out: &mut Formula,
) -> Result<(), NoMemory>
    requires { AreEncodedClauses vars.now clauses.now }
    ensures ok { OnOk result (out.new ≡ out.old ++ clauses_of vars.now.numbering clauses.now) }
    ensures err { OnErr result (AddsPrefix out.old out.new (clauses_of vars.now.numbering clauses.now)) }
{
    for clause in clauses {
        push_clause(alloc, vars, clause.items(), out)?;
    }
    Ok(())
}

// The literals of items that hold.
fn positive(alloc: Global, vars: &Vars, items: &[Item]) -> Result<Vec<Lit>, NoMemory>
    requires { AllByRecursion (IsEncoded vars.now) items.now }
    ensures { IfOk result (λ lits. lits.items ≡ literals_of vars.now.numbering items.now) }
{
    let mut lits = Vec::new(alloc);
    for item in items {
        lits.push(vars.lit(&Claim::so(*item)))?;
    }
    Ok(lits)
}

// Adds the clauses of a list of which at most so many may hold. Answers the next free number.
fn push_bound(
    alloc: Global,
    vars: &Vars,
    it: &Bound,
    next: u32,
    out: &mut Formula,
) -> Result<u32, NoMemory>
    requires list { IsEncodedBound vars.now next it.now }
    requires from_1 { 1 ≤ next }
    requires room { next + helper_count vars.now.encoding (it.now ∷ []) ≤ 2 ^ 31 }
    ensures next { IfOk result (λ free. free ≡ next + helper_count vars.now.encoding (it.now ∷ [])) }
    ensures ok { OnOk result (out.new ≡ out.old ++ bound_clauses vars.now next (it.now ∷ [])) }
    ensures err { OnErr result (AddsPrefix out.old out.new (bound_clauses vars.now next (it.now ∷ []))) }
{
    let lits = positive(alloc, vars, it.items.items())?;
    vars.encoding().emit(alloc, &lits, it.limit, next, out)
}

/// Adds the clauses of lists of which at most so many may hold, one after another, with helpers from a number
/// on. Answers the next free number. After an `Err`, which is out of memory, a prefix of the clauses was
/// added.
pub fn push_bounds(
    alloc: Global,
    vars: &Vars,
    bounds: &[Bound],
    first: u32,
    out: &mut Formula,
) -> Result<u32, NoMemory>
    requires { AreEncodedBounds vars.now first bounds.now }
    ensures next { IfOk result (λ next. next ≡ first + helper_count vars.now.encoding bounds.now) }
    ensures ok { OnOk result (out.new ≡ out.old ++ bound_clauses vars.now first bounds.now) }
    ensures err { OnErr result (AddsPrefix out.old out.new (bound_clauses vars.now first bounds.now)) }
{
    let mut next = first;
    for it in bounds {
        next = push_bound(alloc, vars, it, next, out)?;
    }
    Ok(next)
}
