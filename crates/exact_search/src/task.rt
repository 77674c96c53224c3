//! What is searched.

ghost use Rattle.std.specs.Prelude.{◌≡◌, ℕ, ◌<◌, ◌≤◌, ◌^◌, length, IfOk};
ghost use Rattle.sat_base.specs.Valuation.{valuation_of};
ghost use Rattle.step_vars.specs.Numbering.{before};
ghost use Rattle.step_vars.specs.Encoding.{part_of, goal_literal, numbering_of};
ghost use Rattle.step_vars.specs.declared.encoding.Encoding.TheVariants.{Counter};
ghost use Rattle.step_vars.specs.Certifies.{vars_up_to};
ghost use Rattle.step_facts.specs.Theorems.{IsScheduleOf};
ghost use Rattle.step_models.specs.Models.{facts_of, EveryScheduleFits, IsModel};
ghost use Rattle.exact_search.specs.Searching.{NameTheirVariables};

use circuit_core::Circuit;
use extract::schedule_of;
use qc_base::NoMemory;
use sat_base::{Assignment, Formula, Lit};
use std::alloc::Global;
use std::marker::Model;
use step_clauses::{goal, layer};
use step_models::{every_schedule_fits, parts_name_their_variables};
use step_rules::{Placement, Schedule};
use step_vars::{Claim, Item, Vars};
use trap_model::Trap;

/// What is searched. Clauses see the setting, the variables of its parts and the budget.
#[derive(Drop)]
pub(crate) struct Task<'a> {
    pub alloc: Global,
    pub trap: &'a Trap,
    pub circuit: &'a Circuit,
    pub placement: &'a Placement,
    pub vars: Vars,
    pub budget: u64,
}

impl<'a> Model for Task<'a> {
    ghost use Rattle.step_rules.specs.Setting.{setting_of};
    ghost use Rattle.circuit_core.specs.contracts.angle.Angle as angle;
    ghost use Rattle.std.specs.Coded.{codes};
    ghost use Rattle.exact_search.specs.Searching.{TaskValue, IsTask};

    ghost Value = { TaskValue };

    ghost coded = { Prim.hlevel (codes, angle.the_row.coded) };

    ghost view = { λ t. record {
      setting = setting_of t.trap.now t.circuit.now t.placement.now;
      vars = t.vars;
      budget = t.budget;
    } };

    ghost invariant = { λ t. IsTask (record {
      setting = setting_of t.trap.now t.circuit.now t.placement.now;
      vars = t.vars;
      budget = t.budget;
    }) };
}

impl<'a> Task<'a> {
    /// The clauses of a part.
    pub fn part(&self, bound: u32) -> Result<Formula, NoMemory>
        requires { bound ≤ self.now.vars.steps }
        ensures { IfOk result (λ part. part ≡ part_of self.now.setting Counter bound) }
    {
        let mut part = Formula::new(self.alloc);
        layer(
            self.alloc,
            &self.vars,
            self.trap,
            self.circuit,
            self.placement,
            bound,
            &mut part,
        )?;
        goal(
            self.alloc,
            &self.vars,
            self.trap,
            self.circuit,
            self.placement,
            bound,
            &mut part,
        )?;
        Ok(part)
    }

    /// How many variables the parts 0 to a bound have. Their clauses name no others.
    pub fn vars_up_to(&self, bound: u32) -> u32
        requires { bound ≤ self.now.vars.steps }
        ensures count { result ≡ vars_up_to self.now.setting Counter bound }
        ensures small { result < 2 ^ 31 }
        ensures names { NameTheirVariables self.now.setting bound }
    {
        parts_name_their_variables();
        self.vars.count(bound)
    }

    /// How many variables the parts before a bound have.
    pub fn vars_before(&self, bound: u32) -> u32
        requires { bound ≤ self.now.vars.steps }
        ensures { result ≡ before (numbering_of self.now.setting Counter) bound }
    {
        if bound == 0 {
            0
        } else {
            self.vars_up_to(bound - 1)
        }
    }

    /// The goal of a bound, which is the last variable of its part.
    pub fn goal(&self, bound: u32) -> Lit
        requires { bound ≤ self.now.vars.steps }
        ensures goal { result ≡ goal_literal self.now.setting Counter bound }
        ensures last { result.var ≡ vars_up_to self.now.setting Counter bound }
    {
        self.vars.lit(&Claim::so(Item::Goal { time: bound }))
    }

    /// Every schedule that plays fits the parts.
    pub fn fits(&self)
        ensures { (bound : ℕ) → bound ≤ self.now.vars.steps
            → EveryScheduleFits self.now.setting Counter bound }
    {
        every_schedule_fits();
        let _vars = &self.vars;
    }

    /// The schedule that a model of a bound is of.
    pub fn schedule(&self, values: &Assignment, bound: u32) -> Result<Schedule, NoMemory>
        requires within { bound ≤ self.now.vars.steps }
        requires values { vars_up_to self.now.setting Counter bound ≤ length values.now }
        requires model { IsModel self.now.setting Counter bound (valuation_of values.now) }
        ensures { IfOk result (IsScheduleOf self.now.setting
            (facts_of self.now.setting Counter (valuation_of values.now)) bound) }
    {
        schedule_of(
            self.alloc,
            &self.vars,
            self.trap,
            self.circuit,
            self.placement,
            values,
            bound,
        )
    }
}
