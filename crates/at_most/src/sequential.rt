//! The sequential counter.

ghost use Rattle.std.specs.Prelude.{◌≡◌, ◌+◌, ◌-◌, ◌∷◌, [], ◌++◌, length, OnOk, OnErr};
ghost use Rattle.sat_base.specs.Clauses.{HasDistinctVariables};
ghost use Rattle.at_most.specs.AtMost.{IsLimit, HasRoom, AddsPrefix};
ghost use Rattle.at_most.specs.Sequential.{sequential, sequential_count, carried, first_row, next_row, no_more};
ghost use Rattle.at_most.specs.Conditions.{HasRow};

use crate::at_most::AtMost;
use qc_base::NoMemory;
use sat_base::{Formula, Lit};
use std::alloc::Global;

/// A row of k new variables for each literal but the last, which counts the literals so far.
#[derive(Clone, Copy, Debug, PartialEq, Eq)]
pub struct Sequential;

impl AtMost for Sequential {
    ghost fresh_count = { sequential_count };

    ghost clauses = { sequential };

    fn fresh(&self, n: u32, k: u32) -> u32 {
        (n - 1) * k
    }

    fn emit(
        &self,
        _alloc: Global,
        lits: &[Lit],
        k: u32,
        next: u32,
        out: &mut Formula,
    ) -> Result<u32, NoMemory> {
        push_rows(lits, k, next, out)?;
        Ok(next + self.fresh(lits.len() as u32, k))
    }
}

// Adds all clauses.
fn push_rows(lits: &[Lit], k: u32, next: u32, out: &mut Formula) -> Result<(), NoMemory>
    requires limit { IsLimit (length lits.now) k }
    requires room { HasRoom lits.now next (sequential_count (length lits.now) k) }
    ensures ok { OnOk result (out.new ≡ out.old ++ sequential lits.now k next) }
    ensures err { OnErr result (AddsPrefix out.old out.new (sequential lits.now k next)) }
{
    push_first_row(lits[0], next, k, out)?;
    let last = lits.len() - 1;
    let mut row = next;
    for index in 1..last {
        push_next_row(lits[index], row, k, out)?;
        row += k;
    }
    push_no_more(lits[last], row, k, out)
}

// Adds two clauses.
fn push_both(first: &[Lit], second: &[Lit], out: &mut Formula) -> Result<(), NoMemory>
    requires first { HasDistinctVariables first.now }
    requires second { HasDistinctVariables second.now }
    ensures ok { OnOk result (out.new ≡ out.old ++ first.now ∷ second.now ∷ []) }
    ensures err { OnErr result (AddsPrefix out.old out.new (first.now ∷ second.now ∷ [])) }
{
    out.push(first)?;
    out.push(second)
}

// Adds the clauses of the first literal.
fn push_first_row(lit: Lit, row: u32, k: u32, out: &mut Formula) -> Result<(), NoMemory>
    requires { HasRow lit row k }
    ensures ok { OnOk result (out.new ≡ out.old ++ first_row lit row k) }
    ensures err { OnErr result (AddsPrefix out.old out.new (first_row lit row k)) }
{
    out.push(&[lit.negated(), Lit::new(row, true)])?;
    for place in 1..k {
        out.push(&[Lit::new(row + place, false)])?;
    }
    Ok(())
}

// Adds the clauses of each place of a row but the first.
fn push_carried(lit: Lit, row: u32, k: u32, out: &mut Formula) -> Result<(), NoMemory>
    requires { HasRow lit row (k + k) }
    ensures ok { OnOk result (out.new ≡ out.old ++ carried lit row (row + k) (k - 1)) }
    ensures err { OnErr result (AddsPrefix out.old out.new (carried lit row (row + k) (k - 1))) }
{
    for place in 0..k - 1 {
        let before = row + place;
        let here = row + k + place;
        let one_more = Lit::new(here + 1, true);
        let with_lit = [lit.negated(), Lit::new(before, false), one_more];
        let without_lit = [Lit::new(before + 1, false), one_more];
        push_both(&with_lit, &without_lit, out)?;
    }
    Ok(())
}

// Adds the clause that allows no more than k up to this literal.
fn push_no_more(lit: Lit, row: u32, k: u32, out: &mut Formula) -> Result<(), NoMemory>
    requires { HasRow lit row k }
    ensures ok { OnOk result (out.new ≡ out.old ++ no_more lit row k ∷ []) }
    ensures err { OnErr result (out.new ≡ out.old) }
{
    out.push(&[lit.negated(), Lit::new(row + (k - 1), false)])
}

// Adds the clauses of a literal between the first and the last, with the row before it.
fn push_next_row(lit: Lit, row: u32, k: u32, out: &mut Formula) -> Result<(), NoMemory>
    requires { HasRow lit row (k + k) }
    ensures ok { OnOk result (out.new ≡ out.old ++ next_row lit row (row + k) k) }
    ensures err { OnErr result (AddsPrefix out.old out.new (next_row lit row (row + k) k)) }
{
    let one = Lit::new(row + k, true);
    push_both(&[lit.negated(), one], &[Lit::new(row, false), one], out)?;
    push_carried(lit, row, k, out)?;
    push_no_more(lit, row, k, out)
}
