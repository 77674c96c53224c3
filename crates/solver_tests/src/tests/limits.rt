//! The clauses of short lists.

ghost use Rattle.std.specs.Prelude.{◌+◌, ◌≤◌, ◌<◌, ◌^◌};

use at_most::{AtMost, Pairwise, Sequential, Totalizer};
use qc_base::NoMemory;
use sat_base::{Formula, Lit};
use std::alloc::Global;
use std::process::Abort;
use std::test::Fail;

// The literal as a number, negative where it is negated.
fn number(lit: Lit) -> i64 {
    let var = i64::from(lit.var());
    if lit.positive() { var } else { -var }
}

// Whether the clause has these literals in this order.
fn reads(clause: &[Lit], numbers: &[i64]) -> bool {
    clause
        .iter()
        .map(|&lit| number(lit))
        .eq(numbers.iter().copied())
}

// Whether the formula has these clauses in this order.
fn is_list(formula: &Formula, clauses: &[&[i64]]) -> bool {
    if formula.len() != clauses.len() as u64 {
        return false;
    }
    for k in 0..clauses.len() {
        if k as u64 >= formula.len() || !reads(formula.clause(k as u64 + 1), clauses[k]) {
            return false;
        }
    }
    true
}

// What an encoding makes of three literals with limit 1.
fn one_of_three<E: AtMost>(alloc: Global, encoding: &E) -> Result<(Formula, u32), NoMemory>
    requires { 4 + E.fresh_count 3 1 ≤ 2 ^ 31 }
{
    let lits = [Lit::new(1, true), Lit::new(2, true), Lit::new(3, true)];
    let mut formula = Formula::new(alloc);
    let free = encoding.emit(alloc, &lits, 1, 4, &mut formula)?;
    Ok((formula, free))
}

#[test]
fn one_of_three_by_pairs(rt: HostRuntime) -> Result<(), Fail> {
    let (formula, free) = one_of_three(rt.alloc(), &Pairwise)?;
    assert!(rt; is_list(&formula, &[&[-1, -2], &[-1, -3], &[-2, -3]]));
    assert!(rt; free == 4);
    Ok(())
}

#[test]
fn one_of_three_by_a_counter(rt: HostRuntime) -> Result<(), Fail> {
    let (formula, free) = one_of_three(rt.alloc(), &Sequential)?;
    assert!(rt;
        is_list(
            &formula,
            &[&[-1, 4], &[-2, 5], &[-4, 5], &[-2, -4], &[-3, -5]]
        )
    );
    assert!(rt; free == 6);
    Ok(())
}

#[test]
fn one_of_three_by_sums(rt: HostRuntime) -> Result<(), Fail> {
    let (formula, free) = one_of_three(rt.alloc(), &Totalizer)?;
    let clauses: [&[i64]; 8] = [
        &[-3, 4],
        &[-2, 4],
        &[-2, -3, 5],
        &[-4, 6],
        &[-5, 7],
        &[-1, 6],
        &[-1, -4, 7],
        &[-7],
    ];
    assert!(rt; is_list(&formula, &clauses));
    assert!(rt; free == 8);
    Ok(())
}

// What an encoding makes of four literals with limit 2.
fn two_of_four<E: AtMost>(alloc: Global, encoding: &E) -> Result<(Formula, u32), NoMemory>
    requires { 5 + E.fresh_count 4 2 ≤ 2 ^ 31 }
{
    let lits = [
        Lit::new(1, true),
        Lit::new(2, true),
        Lit::new(3, true),
        Lit::new(4, true),
    ];
    let mut formula = Formula::new(alloc);
    let free = encoding.emit(alloc, &lits, 2, 5, &mut formula)?;
    Ok((formula, free))
}

#[test]
fn two_of_four_by_a_counter(rt: HostRuntime) -> Result<(), Fail> {
    let (formula, free) = two_of_four(rt.alloc(), &Sequential)?;
    let clauses: [&[i64]; 13] = [
        &[-1, 5],
        &[-6],
        &[-2, 7],
        &[-5, 7],
        &[-2, -5, 8],
        &[-6, 8],
        &[-2, -6],
        &[-3, 9],
        &[-7, 9],
        &[-3, -7, 10],
        &[-8, 10],
        &[-3, -8],
        &[-4, -10],
    ];
    assert!(rt; is_list(&formula, &clauses));
    assert!(rt; free == 11);
    Ok(())
}

#[test]
fn two_of_four_by_sums(rt: HostRuntime) -> Result<(), Fail> {
    let (formula, free) = two_of_four(rt.alloc(), &Totalizer)?;
    let clauses: [&[i64]; 14] = [
        &[-2, 5],
        &[-1, 5],
        &[-1, -2, 6],
        &[-4, 7],
        &[-3, 7],
        &[-3, -4, 8],
        &[-7, 9],
        &[-8, 10],
        &[-5, 9],
        &[-5, -7, 10],
        &[-5, -8, 11],
        &[-6, 10],
        &[-6, -7, 11],
        &[-11],
    ];
    assert!(rt; is_list(&formula, &clauses));
    assert!(rt; free == 12);
    Ok(())
}

#[test]
fn counts_of_new_variables(rt: HostRuntime) -> Result<(), Fail> {
    assert!(rt; Pairwise.fresh(32_768, 5) == 0);
    assert!(rt; Sequential.fresh(32_768, 32_767) == 1_073_676_289);
    assert!(rt; Totalizer.fresh(32_768, 32_767) == 491_520);
    Ok(())
}
