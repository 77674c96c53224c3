//! The pairwise encoding: all choices of one literal too many.

ghost use Rattle.std.specs.Prelude.{◌≡◌, ◌+◌, ◌<◌, ◌++◌, map, OnOk, OnErr};
ghost use Rattle.sat_base.specs.Clauses.{HasDistinctVariables};
ghost use Rattle.sat_base.specs.Literal.{negated};
ghost use Rattle.at_most.specs.Pairwise.{choices};
ghost use Rattle.at_most.specs.AtMost.{AddsPrefix};

use crate::at_most::AtMost;
use qc_base::NoMemory;
use sat_base::{Formula, Lit};
use std::alloc::Global;

/// A clause for each choice of k + 1 literals, without new variables.
#[derive(Clone, Copy, Debug, PartialEq, Eq)]
pub struct Pairwise;

impl AtMost for Pairwise {
    ghost use Rattle.at_most.specs.Pairwise.{pairwise};

    ghost fresh_count = { λ n k. 0 };

    ghost clauses = { λ literals k next. pairwise literals k };

    fn fresh(&self, _n: u32, _k: u32) -> u32 {
        0
    }

    fn emit(
        &self,
        alloc: Global,
        lits: &[Lit],
        k: u32,
        next: u32,
        out: &mut Formula,
    ) -> Result<u32, NoMemory> {
        push_choices(alloc, lits, k as usize + 1, out)?;
        Ok(next)
    }
}

// Adds the clauses of the negated literals of all choices of that size. The choice in hand is kept as its negated
// literals so far and their positions.
fn push_choices(alloc: Global, lits: &[Lit], size: usize, out: &mut Formula) -> Result<(), NoMemory>
    requires { HasDistinctVariables lits.now }
    ensures ok { OnOk result (out.new ≡ out.old ++ choices size (map negated lits.now)) }
    ensures err { OnErr result (AddsPrefix out.old out.new (choices size (map negated lits.now))) }
{
    let count = lits.len();
    let mut clause = Vec::new(alloc);
    let mut positions = Vec::new(alloc);
    let mut from = 0;
    'choices: loop {
        let missing = size - clause.len();
        if missing == 0 {
            out.push(&clause)?;
        } else if missing <= count - from {
            clause.push(lits[from].negated())?;
            positions.push(from)?;
            from += 1;
            continue;
        }
        let Some(last) = positions.pop() else {
            return Ok(());
        };
        clause.pop();
        from = last + 1;
    }
}
