//! The search, bound by bound.

ghost use Rattle.std.specs.Prelude.{◌≡◌, ℕ, ◌≤◌, ◌<◌, ◌+◌, ◌++◌, length, suc, IfOk, OnOk};
ghost use Rattle.sat_base.specs.Clauses.{NameOnly};
ghost use Rattle.sat_base.specs.Valuation.{valuation_of};
ghost use Rattle.derivation_log.specs.Log.{log_of};
ghost use Rattle.solver_trail.specs.Trail.{values_of};
ghost use Rattle.step_rules.specs.declared.action.Action.{Action};
ghost use Rattle.step_rules.specs.Play.{IsLeast};
ghost use Rattle.exact_search.specs.Found.{IsFound};
ghost use Rattle.exact_search.specs.Searching.{HasRefuted, HasAdded, IsModelOf, IsDecided};

use crate::found::Found;
use crate::laws::fresh_lines_are_few;
use crate::task::Task;
use cdcl::{Recent, Solver, Verdict};
use derivation_log::Log;
use qc_base::NoMemory;
use sat_base::{Assignment, Formula};
use std::alloc::Global;
use step_rules::Schedule;

/// How many first axioms and derived lines of a log refute that there are fewer steps.
#[derive(Clone, Copy, Debug)]
pub(crate) struct Shown {
    pub axioms: u64,
    pub lines: u64,
}

/// How far a search is: its solver, and what refutes that there are fewer steps.
#[derive(Drop)]
pub(crate) struct Search {
    pub solver: Solver<Recent>,
    pub shown: Shown,
}

// Adds the clauses in order.
fn add_clauses(solver: &mut Solver<Recent>, part: &Formula) -> Result<(), NoMemory>
    requires { NameOnly (λ var. var ≤ solver.old.trail.vars) part.now }
    ensures log { OnOk result (solver.new.log
        ≡ log_of (solver.old.log.axioms ++ part.now) solver.old.log.derived) }
    ensures vars { OnOk result (solver.new.trail.vars ≡ solver.old.trail.vars) }
{
    for k in 0..part.len() {
        solver.add_clause(part.clause(k + 1))?;
    }
    Ok(())
}

// The values of the first so many variables.
fn values_of(alloc: Global, solver: &Solver<Recent>, vars: u32) -> Result<Assignment, NoMemory>
    requires { vars ≤ solver.now.trail.vars }
    ensures vars { IfOk result (λ values. length values ≡ vars) }
    ensures same { IfOk result (λ values. (var : ℕ) → 1 ≤ var → var ≤ vars
        → values_of solver.now.trail.entries var ≡ valuation_of values var) }
{
    let mut values = Assignment::new(alloc, vars)?;
    for index in 0..vars {
        values.set(index + 1, solver.value(index + 1));
    }
    Ok(values)
}

impl Search {
    // Adds the part of a bound: its variables, and then its clauses.
    fn add_part(&mut self, task: &Task, bound: u32) -> Result<(), NoMemory>
        requires within { bound ≤ task.now.vars.steps }
        requires refuted { HasRefuted task.now bound self.old.solver self.old.shown }
        ensures { OnOk result (HasAdded task.now bound self.new.solver self.new.shown) }
    {
        let part = task.part(bound)?;
        let vars = task.vars_up_to(bound) - task.vars_before(bound);
        self.solver.add_vars(vars)?;
        add_clauses(&mut self.solver, &part)?;
        Ok(())
    }

    // Looks for a model of a bound, or for a line that refutes it.
    fn decide(&mut self, task: &Task, bound: u32) -> Result<Verdict, NoMemory>
        requires within { bound ≤ task.now.vars.steps }
        requires added { HasAdded task.now bound self.old.solver self.old.shown }
        ensures { IfOk result (IsDecided task.now bound self.new.solver self.new.shown) }
    {
        fresh_lines_are_few();
        let verdict = self.solver.solve(task.goal(bound), task.budget)?;
        let axioms = self.solver.log().axioms();
        match verdict {
            Verdict::Refuted { line } => {
                self.shown = Shown {
                    axioms,
                    lines: line.number,
                };
                Ok(Verdict::Refuted { line })
            }
            Verdict::Model => Ok(Verdict::Model),
            Verdict::Spent => Ok(Verdict::Spent),
        }
    }

    // The schedule of the model of a bound.
    fn schedule(&self, task: &Task, bound: u32) -> Result<Schedule, NoMemory>
        requires within { bound ≤ task.now.vars.steps }
        requires model { IsModelOf task.now bound self.now.solver self.now.shown }
        ensures least { IfOk result (IsLeast task.now.setting) }
        ensures long { IfOk result (λ schedule. length schedule ≡ bound) }
    {
        task.fits();
        let values = values_of(task.alloc, &self.solver, task.vars_up_to(bound))?;
        let schedule = task.schedule(&values, bound)?;
        Ok(schedule)
    }
}

/// Tries the bounds from 0 up, over one solver.
pub(crate) fn find_least(task: &Task, max: u32) -> Result<Found, NoMemory>
    requires { task.now.vars.steps ≡ max }
    ensures { IfOk result (IsFound task.now.setting max task.now.budget) }
{
    let mut search = Search {
        solver: Solver::new(task.alloc, Recent::new(task.alloc)),
        shown: Shown {
            axioms: 0,
            lines: 0,
        },
    };
    for bound in 0..max + 1 {
        search.add_part(task, bound)?;
        match search.decide(task, bound)? {
            Verdict::Model => {
                let schedule = search.schedule(task, bound)?;
                return Ok(Found::Least {
                    schedule,
                    axioms: search.shown.axioms,
                    lines: search.shown.lines,
                    log: search.solver.into_log(),
                });
            }
            Verdict::Refuted { .. } => {}
            Verdict::Spent => {
                return Ok(Found::Spent {
                    log: search.solver.into_log(),
                    bound,
                });
            }
        }
    }
    task.fits();
    Ok(Found::NoneWithin {
        lines: search.shown.lines,
        log: search.solver.into_log(),
    })
}
