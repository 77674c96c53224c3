//! The totalizer: a tree of sums.

ghost use Rattle.std.specs.Prelude.{◌≡◌, ◌+◌, ◌<◌, ◌≤◌, ◌^◌, [], ◌++◌, length, slice_index_or, IfOk, OnOk, OnErr};
ghost use Rattle.at_most.specs.AtMost.{IsLimit, HasRoom, AddsPrefix};
ghost use Rattle.at_most.specs.Totalizer.{variables, premises, sum_of, tree_of, added_up, totalizer, totalizer_count};
ghost use Rattle.at_most.specs.Conditions.{premise_of, sums_at, AreApart, CanBuild};

use crate::at_most::AtMost;
use qc_base::NoMemory;
use sat_base::{Formula, Lit};
use std::alloc::Global;

/// New variables for the list, its halves, their halves and so on, which count the true literals of each.
#[derive(Clone, Copy, Debug, PartialEq, Eq)]
pub struct Totalizer;

impl AtMost for Totalizer {
    ghost fresh_count = { totalizer_count };

    ghost clauses = { totalizer };

    fn fresh(&self, n: u32, k: u32) -> u32 {
        output_count(n, k)
    }

    fn emit(
        &self,
        alloc: Global,
        lits: &[Lit],
        k: u32,
        next: u32,
        out: &mut Formula,
    ) -> Result<u32, NoMemory> {
        push_tree(alloc, lits, k, next, out)
    }
}

// What was made for a list: its outputs, and the next free variable.
#[derive(Drop)]
struct Outputs {
    lits: Vec<Lit>,
    next: u32,
}

// How many outputs are made for so many literals.
fn output_count(n: u32, k: u32) -> u32
    requires n { n ≤ 32768 }
    requires k { k < 32768 }
    ensures { result ≡ totalizer_count n k }
{
    if n <= 1 {
        return 0;
    }
    let half = n / 2;
    output_count(half, k) + output_count(n - half, k) + n.min(k + 1)
}

// Adds all clauses, and answers the next free variable.
fn push_tree(
    alloc: Global,
    lits: &[Lit],
    k: u32,
    next: u32,
    out: &mut Formula,
) -> Result<u32, NoMemory>
    requires limit { IsLimit (length lits.now) k }
    requires room { HasRoom lits.now next (totalizer_count (length lits.now) k) }
    ensures free { IfOk result (λ free. free ≡ next + totalizer_count (length lits.now) k) }
    ensures ok { OnOk result (out.new ≡ out.old ++ totalizer lits.now k next) }
    ensures err { OnErr result (AddsPrefix out.old out.new (totalizer lits.now k next)) }
{
    let whole = build(alloc, lits, k, next, out)?;
    let last = whole.lits[k as usize];
    out.push(&[last.negated()])?;
    Ok(whole.next)
}

// Adds the clauses of a list and of its halves.
fn build(
    alloc: Global,
    lits: &[Lit],
    k: u32,
    next: u32,
    out: &mut Formula,
) -> Result<Outputs, NoMemory>
    requires { CanBuild lits.now k next }
    ensures outputs { IfOk result (λ made. made.lits.items ≡ (tree_of k lits.now next).outputs) }
    ensures free { IfOk result (λ made. made.next ≡ (tree_of k lits.now next).next) }
    ensures ok { OnOk result (out.new ≡ out.old ++ (tree_of k lits.now next).clauses) }
    ensures err { OnErr result (AddsPrefix out.old out.new (tree_of k lits.now next).clauses) }
{
    let n = lits.len();
    if n <= 1 {
        let mut own = Vec::new(alloc);
        own.extend_from_slice(lits)?;
        return Ok(Outputs { lits: own, next });
    }
    let (lefts, rights) = lits.split_at(n / 2);
    let left = build(alloc, lefts, k, next, out)?;
    let right = build(alloc, rights, k, left.next, out)?;
    let most = (n as u32).min(k + 1);
    join(alloc, &left.lits, &right.lits, right.next, most, out)
}

// Puts two lists together, with so many new outputs.
fn join(
    alloc: Global,
    lefts: &[Lit],
    rights: &[Lit],
    first: u32,
    most: u32,
    out: &mut Formula,
) -> Result<Outputs, NoMemory>
    requires outputs { AreApart lefts.now rights.now first }
    requires from_1 { 1 ≤ first }
    requires few { length lefts.now + length rights.now < 2 ^ 31 }
    requires numbers { first + most ≤ 2 ^ 31 }
    ensures outputs { IfOk result (λ made. made.lits.items ≡ variables first most) }
    ensures free { IfOk result (λ made. made.next ≡ first + most) }
    ensures ok { OnOk result (out.new ≡ out.old ++ added_up lefts.now rights.now first most) }
    ensures err { OnErr result (AddsPrefix out.old out.new (added_up lefts.now rights.now first most)) }
{
    let outputs = new_variables(alloc, first, most)?;
    push_merged(lefts, rights, first, most, out)?;
    Ok(Outputs {
        lits: outputs,
        next: first + most,
    })
}

// So many variables.
fn new_variables(alloc: Global, first: u32, count: u32) -> Result<Vec<Lit>, NoMemory>
    requires from_1 { 1 ≤ first }
    requires numbers { first + count ≤ 2 ^ 31 }
    ensures { IfOk result (λ outputs. outputs.items ≡ variables first count) }
{
    let mut outputs = Vec::new(alloc);
    for place in 0..count {
        outputs.push(Lit::new(first + place, true))?;
    }
    Ok(outputs)
}

// The output of that number, counted from 1; none for 0.
fn output(outputs: &[Lit], number: usize) -> Option<Lit>
    requires { number ≤ length outputs.now }
    ensures { premise_of result ≡ slice_index_or (premises outputs.now) number [] }
{
    if number == 0 {
        None
    } else {
        Some(outputs[number - 1])
    }
}

// Adds the clauses that put two lists of outputs together.
fn push_merged(
    lefts: &[Lit],
    rights: &[Lit],
    first: u32,
    most: u32,
    out: &mut Formula,
) -> Result<(), NoMemory>
    requires outputs { AreApart lefts.now rights.now first }
    requires from_1 { 1 ≤ first }
    requires few { length lefts.now + length rights.now < 2 ^ 31 }
    requires numbers { first + most ≤ 2 ^ 31 }
    ensures ok { OnOk result (out.new ≡ out.old ++ added_up lefts.now rights.now first most) }
    ensures err { OnErr result (AddsPrefix out.old out.new (added_up lefts.now rights.now first most)) }
{
    for left in 0..lefts.len() + 1 {
        push_sums(lefts, left, rights, first, most, out)?;
    }
    Ok(())
}

// Adds the clauses of the left output of that number.
fn push_sums(
    lefts: &[Lit],
    left: usize,
    rights: &[Lit],
    first: u32,
    most: u32,
    out: &mut Formula,
) -> Result<(), NoMemory>
    requires outputs { AreApart lefts.now rights.now first }
    requires left { left ≤ length lefts.now }
    requires from_1 { 1 ≤ first }
    requires few { length lefts.now + length rights.now < 2 ^ 31 }
    requires numbers { first + most ≤ 2 ^ 31 }
    ensures ok { OnOk result (out.new ≡ out.old ++ sums_at lefts.now left rights.now first most) }
    ensures err { OnErr result (AddsPrefix out.old out.new (sums_at lefts.now left rights.now first most)) }
{
    for right in 0..rights.len() + 1 {
        let sum = (left + right) as u32;
        push_sum(
            output(lefts, left),
            output(rights, right),
            sum,
            first,
            most,
            out,
        )?;
    }
    Ok(())
}

// Adds the clause of two outputs, where there is one.
fn push_sum(
    left: Option<Lit>,
    right: Option<Lit>,
    sum: u32,
    first: u32,
    most: u32,
    out: &mut Formula,
) -> Result<(), NoMemory>
    requires outputs { AreApart (premise_of left) (premise_of right) first }
    requires from_1 { 1 ≤ first }
    requires numbers { first + most ≤ 2 ^ 31 }
    ensures ok { OnOk result (out.new ≡ out.old ++ sum_of (premise_of left) (premise_of right) sum first most) }
    ensures err { OnErr result (out.new ≡ out.old) }
{
    if sum < 1 || most < sum {
        return Ok(());
    }
    let reached = Lit::new(first + (sum - 1), true);
    match (left, right) {
        (None, None) => out.push(&[reached]),
        (Some(l), None) => out.push(&[l.negated(), reached]),
        (None, Some(r)) => out.push(&[r.negated(), reached]),
        (Some(l), Some(r)) => out.push(&[l.negated(), r.negated(), reached]),
    }
}
