//! Small formulas and a pigeonhole.

ghost use Rattle.std.specs.Prelude.{◌≡◌, ◌<◌, ◌^◌, ◌≤◌, true, [], length, IfOk, OnOk, IfSome, IfNone, ℕ};
ghost use Rattle.sat_base.specs.Literal.{positive_of};
ghost use Rattle.sat_base.specs.Clauses.{HasDistinctVariables, EachVariable};
ghost use Rattle.solver_trail.specs.Trail.{IsUnassigned};
ghost use Rattle.cdcl.specs.Solver.{empty_solver, with_vars, IsVerdict};

use cdcl::{Pick, Recent, Solver, Values, Verdict};
use qc_base::NoMemory;
use sat_base::Lit;
use std::alloc::Global;
use std::process::Abort;
use std::test::Fail;

fn solver_with(alloc: Global, vars: u32) -> Result<Solver<Recent>, NoMemory>
    requires { vars < 2 ^ 31 }
    ensures { IfOk result (λ solver. solver ≡ with_vars vars empty_solver) }
{
    let mut solver = Solver::new(alloc, Recent::new(alloc));
    solver.add_vars(vars)?;
    Ok(solver)
}

// Adds a clause over the variables 1 and 2.
fn add_pair(solver: &mut Solver<Recent>, first: bool, second: bool) -> Result<(), NoMemory>
    requires vars { solver.old.trail.vars ≡ 2 }
    ensures vars { solver.new.trail.vars ≡ 2 }
    ensures log { OnOk result (solver.new.log.derived ≡ solver.old.log.derived) }
{
    solver.add_clause(&[Lit::new(1, first), Lit::new(2, second)])
}

// Assumes the variable 1.
fn solve_first(solver: &mut Solver<Recent>, budget: u64) -> Result<Verdict, NoMemory>
    requires vars { solver.old.trail.vars ≡ 2 }
    requires budget { length solver.old.log.derived ≤ budget }
    ensures verdict { IfOk result (IsVerdict solver.new (positive_of 1) budget) }
    ensures vars { solver.new.trail.vars ≡ 2 }
    ensures budget { length solver.new.log.derived ≤ budget }
{
    solver.solve(Lit::new(1, true), budget)
}

// The first variable implies the second.
fn implication(alloc: Global) -> Result<Solver<Recent>, NoMemory>
    ensures vars { IfOk result (λ solver. solver.trail.vars ≡ 2) }
    ensures log { IfOk result (λ solver. solver.log.derived ≡ []) }
{
    let mut solver = solver_with(alloc, 2)?;
    add_pair(&mut solver, false, true)?;
    Ok(solver)
}

// The first variable implies the second, which is false.
fn denied_implication(alloc: Global) -> Result<Solver<Recent>, NoMemory>
    ensures vars { IfOk result (λ solver. solver.trail.vars ≡ 2) }
    ensures log { IfOk result (λ solver. solver.log.derived ≡ []) }
{
    let mut solver = implication(alloc)?;
    solver.add_clause(&[Lit::new(2, false)])?;
    Ok(solver)
}

// All clauses of two literals over two variables.
fn four_pairs(alloc: Global) -> Result<Solver<Recent>, NoMemory>
    ensures vars { IfOk result (λ solver. solver.trail.vars ≡ 2) }
    ensures log { IfOk result (λ solver. solver.log.derived ≡ []) }
{
    let mut solver = solver_with(alloc, 2)?;
    for k in 0..4 {
        add_pair(&mut solver, k % 2 == 0, k / 2 == 0)?;
    }
    Ok(solver)
}

// Whether a verdict is a line with that one literal.
fn is_line_of(solver: &Solver<Recent>, verdict: Verdict, literal: Lit) -> bool
    requires { IsVerdict solver.now (positive_of 1) 1 verdict }
{
    match verdict {
        Verdict::Refuted { line } => solver.log().clause(line) == [literal].as_slice(),
        _ => false,
    }
}

#[test]
fn model_with_both_true(rt: HostRuntime) -> Result<(), Fail> {
    let mut solver = implication(rt.alloc())?;
    let verdict = solve_first(&mut solver, 1)?;
    assert!(rt; verdict == Verdict::Model && solver.value(1) && solver.value(2));
    Ok(())
}

#[test]
fn refuted_by_a_unit(rt: HostRuntime) -> Result<(), Fail> {
    let mut solver = denied_implication(rt.alloc())?;
    let verdict = solve_first(&mut solver, 1)?;
    assert!(rt; is_line_of(&solver, verdict, Lit::new(1, false)));
    Ok(())
}

#[test]
fn four_binary_clauses(rt: HostRuntime) -> Result<(), Fail> {
    let mut solver = four_pairs(rt.alloc())?;
    let at_0 = solve_first(&mut solver, 0)?;
    let at_10 = solve_first(&mut solver, 10)?;
    assert!(rt; at_0 == Verdict::Spent && matches!(at_10, Verdict::Refuted { .. }));
    Ok(())
}

// Variables 1 and 2, and so many clauses of two further variables each.
fn with_far_clauses(alloc: Global) -> Result<Solver<Recent>, NoMemory>
    ensures vars { IfOk result (λ solver. solver.trail.vars ≡ 20002) }
    ensures log { IfOk result (λ solver. solver.log.derived ≡ []) }
{
    let mut solver = solver_with(alloc, 20_002)?;
    solver.add_clause(&[Lit::new(1, false), Lit::new(2, true)])?;
    solver.add_clause(&[Lit::new(2, false)])?;
    for k in 1..10_001 {
        solver.add_clause(&[Lit::new(2 * k + 1, true), Lit::new(2 * k + 2, true)])?;
    }
    Ok(solver)
}

#[test]
fn clauses_that_never_matter_are_not_visited(rt: HostRuntime) -> Result<(), Fail> {
    let mut solver = with_far_clauses(rt.alloc())?;
    let verdict = solver.solve(Lit::new(1, true), 1)?;
    assert!(rt; matches!(verdict, Verdict::Refuted { .. }));
    assert!(rt; solver.visited() < 100);
    Ok(())
}

// A pigeon is in some hole.
fn some_hole(solver: &mut Solver<Recent>, i: u32) -> Result<(), NoMemory>
    requires pigeon { i < 6 }
    requires vars { solver.old.trail.vars ≡ 31 }
    ensures vars { solver.new.trail.vars ≡ 31 }
    ensures log { OnOk result (solver.new.log.derived ≡ solver.old.log.derived) }
{
    let first = 5 * i + 1;
    solver.add_clause(&[
        Lit::new(first, true),
        Lit::new(first + 1, true),
        Lit::new(first + 2, true),
        Lit::new(first + 3, true),
        Lit::new(first + 4, true),
    ])
}

// Two pigeons are not in one hole.
fn no_hole_together(solver: &mut Solver<Recent>, i: u32, k: u32) -> Result<(), NoMemory>
    requires order { i < k }
    requires pigeon { k < 6 }
    requires vars { solver.old.trail.vars ≡ 31 }
    ensures vars { solver.new.trail.vars ≡ 31 }
    ensures log { OnOk result (solver.new.log.derived ≡ solver.old.log.derived) }
{
    for j in 0..5 {
        solver.add_clause(&[
            Lit::new(5 * i + j + 1, false),
            Lit::new(5 * k + j + 1, false),
        ])?;
    }
    Ok(())
}

// Six pigeons and five holes.
fn pigeonhole(alloc: Global) -> Result<Solver<Recent>, NoMemory>
    ensures vars { IfOk result (λ solver. solver.trail.vars ≡ 31) }
    ensures log { IfOk result (λ solver. solver.log.derived ≡ []) }
{
    let mut solver = solver_with(alloc, 31)?;
    for i in 0..6 {
        some_hole(&mut solver, i)?;
    }
    for k in 0..6 {
        for i in 0..k {
            no_hole_together(&mut solver, i, k)?;
        }
    }
    Ok(solver)
}

#[test]
fn six_pigeons_in_five_holes(rt: HostRuntime) -> Result<(), Fail> {
    let mut solver = pigeonhole(rt.alloc())?;
    let verdict = solver.solve(Lit::new(31, true), 20_000)?;
    assert!(rt; matches!(verdict, Verdict::Refuted { .. }));
    Ok(())
}

// Three literals of different variables.
fn three_literals(code: u32) -> [Lit; 3]
    ensures distinct { HasDistinctVariables result }
    ensures named { EachVariable (λ var. var ≤ 6) result }
{
    let first = 1 + code % 2;
    let second = first + 1 + code / 2 % 2;
    let third = second + 1 + code / 4 % 2;
    [
        Lit::new(first, code / 8 % 2 == 0),
        Lit::new(second, code / 16 % 2 == 0),
        Lit::new(third, code / 32 % 2 == 0),
    ]
}

// Adds a clause of three literals.
fn add_three(solver: &mut Solver<Recent>, code: u32) -> Result<(), NoMemory>
    requires vars { solver.old.trail.vars ≡ 6 }
    ensures vars { solver.new.trail.vars ≡ 6 }
    ensures log { OnOk result (solver.new.log.derived ≡ solver.old.log.derived) }
{
    solver.add_clause(&three_literals(code))
}

// Six variables, and a clause for each code.
fn with_clauses(alloc: Global, codes: &[u32]) -> Result<Solver<Recent>, NoMemory>
    ensures vars { IfOk result (λ solver. solver.trail.vars ≡ 6) }
    ensures log { IfOk result (λ solver. solver.log.derived ≡ []) }
{
    let mut solver = solver_with(alloc, 6)?;
    for &code in codes {
        add_three(&mut solver, code)?;
    }
    Ok(solver)
}

// Whether an assignment, with a bit for each variable, makes a literal true.
fn is_true(assignment: u32, literal: Lit) -> bool {
    (assignment >> (literal.var() % 32) & 1 == 1) == literal.positive()
}

// Whether an assignment satisfies the clause of each code.
fn satisfies(assignment: u32, codes: &[u32]) -> bool {
    for &code in codes {
        let [first, second, third] = three_literals(code);
        if !is_true(assignment, first)
            && !is_true(assignment, second)
            && !is_true(assignment, third)
        {
            return false;
        }
    }
    true
}

// Whether an assignment satisfies the clause of each code and makes the first variable true.
fn has_model(codes: &[u32]) -> bool {
    for k in 0..32 {
        if satisfies(4 * k + 2, codes) {
            return true;
        }
    }
    false
}

// Whether the solver says what a look at all assignments says.
fn is_decided(alloc: Global, codes: &[u32]) -> Result<bool, NoMemory> {
    let mut solver = with_clauses(alloc, codes)?;
    match solver.solve(Lit::new(1, true), 1_000)? {
        Verdict::Model => Ok(has_model(codes)),
        Verdict::Refuted { .. } => Ok(!has_model(codes)),
        Verdict::Spent => Ok(false),
    }
}

#[test]
fn all_assignments_agree(rt: HostRuntime) -> Result<(), Fail> {
    let mut state: u32 = 1;
    for len in 10..60 {
        let mut codes = Vec::new(rt.alloc());
        for _ in 0..len {
            state = state.wrapping_mul(1_664_525).wrapping_add(1_013_904_223);
            codes.push(state >> 26)?;
        }
        assert!(rt; is_decided(rt.alloc(), &codes)?, "at {len}");
    }
    Ok(())
}

// A choice whose memory runs out at the second call that takes some.
#[derive(Drop)]
struct Scarce {
    recent: Recent,
    grown: bool,
}

impl Pick for Scarce {
    fn grow(&mut self, n: u32) -> Result<(), NoMemory> {
        if self.grown {
            return Err(NoMemory);
        }
        self.grown = true;
        self.recent.grow(n)
    }

    fn met(&mut self, var: u32) {
        self.recent.met(var);
    }

    fn pick(&mut self, values: &Values) -> Option<Lit>
        ensures some { IfSome result (λ literal. IsUnassigned values.now literal.var) }
        ensures none { IfNone result ((var : ℕ) → IsUnassigned values.now var → ⊥) }
    {
        self.recent.pick(values)
    }
}

// One variable, and no memory for more.
fn scarce_solver(alloc: Global) -> Result<Solver<Scarce>, NoMemory>
    ensures { IfOk result (λ solver. solver ≡ with_vars 1 empty_solver) }
{
    let recent = Recent::new(alloc);
    let pick = Scarce {
        recent,
        grown: false,
    };
    let mut solver = Solver::new(alloc, pick);
    solver.add_vars(1)?;
    Ok(solver)
}

fn refuses_variables(solver: &mut Solver<Scarce>) -> bool
    requires few { solver.old.trail.vars < 2 ^ 30 }
    ensures vars { solver.old.trail.vars ≤ solver.new.trail.vars }
    ensures log { solver.new.log ≡ solver.old.log }
{
    solver.add_vars(1).is_err()
}

fn refuses_to_solve(solver: &mut Solver<Scarce>) -> bool
    requires vars { 1 ≤ solver.old.trail.vars }
    requires log { solver.old.log.derived ≡ [] }
{
    solver.solve(Lit::new(1, true), 10).is_err()
}

#[test]
fn out_of_memory_is_for_ever(rt: HostRuntime) -> Result<(), Fail> {
    let mut solver = scarce_solver(rt.alloc())?;
    assert!(rt; refuses_variables(&mut solver));
    assert!(rt; refuses_to_solve(&mut solver));
    Ok(())
}
