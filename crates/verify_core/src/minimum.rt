//! What a certificate has to show.

ghost use Rattle.std.specs.Prelude.{◌≡◌, ℕ, ◌+◌, ◌≤◌, suc, length, IfOk, IfErr};
ghost use Rattle.sat_base.specs.Certificate.{head_text};
ghost use Rattle.step_vars.specs.Encoding.{encoding_of, vars_of};
ghost use Rattle.step_vars.specs.Certifies.{head_of, asked};
ghost use Rattle.verify_core.specs.Reading.{IsReady};

use crate::verification::LIMIT;
use crate::verify_fault::VerifyFault;
use circuit_core::Circuit;
use derivation_check::Checker;
use qc_base::NoMemory;
use sat_base::{Bound, Formula};
use std::alloc::Global;
use std::marker::Model;
use step_clauses::{goal, layer};
use step_models::parts_are_small;
use step_rules::Placement;
use step_vars::{Claim, Encoding, Item, Vars};
use trap_model::Trap;

/// What a certificate has to show: that no schedule that plays has fewer steps. Clauses see the setting and the
/// steps.
#[derive(Drop)]
pub(crate) struct Minimum<'a> {
    pub alloc: Global,
    pub trap: &'a Trap,
    pub circuit: &'a Circuit,
    pub placement: &'a Placement,
    pub steps: u32,
}

impl<'a> Model for Minimum<'a> {
    ghost use Rattle.step_rules.specs.Setting.{setting_of};
    ghost use Rattle.circuit_core.specs.contracts.angle.Angle as angle;
    ghost use Rattle.std.specs.Coded.{codes};
    ghost use Rattle.verify_core.specs.Reading.{MinimumValue, IsMinimum};

    ghost Value = { MinimumValue };

    ghost coded = { Prim.hlevel (codes, angle.the_row.coded) };

    ghost view = { λ m. record {
      setting = setting_of m.trap.now m.circuit.now m.placement.now;
      steps = m.steps;
    } };

    ghost invariant = { λ m. IsMinimum (record {
      setting = setting_of m.trap.now m.circuit.now m.placement.now;
      steps = m.steps;
    }) };
}

impl<'a> Minimum<'a> {
    /// How many steps there are.
    pub fn steps(&self) -> u32
        ensures steps { result ≡ self.now.steps }
        ensures few { result ≤ 48 }
    {
        self.steps
    }

    /// What a head has to say is refuted.
    pub fn asked(&self) -> Bound
        ensures { result ≡ asked self.now.steps }
    {
        if self.steps == 0 {
            Bound::Nothing
        } else {
            Bound::Refutes(self.steps - 1)
        }
    }

    // The clauses of the parts 0 to a bound.
    fn formula(&self, vars: &Vars, bound: u32) -> Result<Formula, NoMemory>
        requires vars { vars.now ≡ vars_of self.now.setting vars.now.encoding bound }
        requires within { bound ≤ self.now.steps }
        ensures { IfOk result (λ formula. formula ≡ encoding_of self.now.setting vars.now.encoding bound) }
    {
        let mut formula = Formula::new(self.alloc);
        for t in 0..bound + 1 {
            layer(
                self.alloc,
                vars,
                self.trap,
                self.circuit,
                self.placement,
                t,
                &mut formula,
            )?;
            goal(
                self.alloc,
                vars,
                self.trap,
                self.circuit,
                self.placement,
                t,
                &mut formula,
            )?;
        }
        Ok(formula)
    }

    /// A checker of the lines after a head that refutes the last bound, and the variable of its goal.
    pub fn checker(&self, encoding: Encoding, head: u64) -> Result<(Checker, u32), VerifyFault>
        requires some { 1 ≤ self.now.steps }
        requires head { head ≡ length (head_text (head_of encoding (asked self.now.steps))) }
        ensures ready { IfOk result (λ x. (bound : ℕ) → self.now.steps ≡ suc bound
            → IsReady self.now.setting encoding bound x.0 x.1) }
        ensures err { IfErr result (λ fault. fault ≡ VerifyFault.NoMemory) }
    {
        parts_are_small();
        let bound = self.steps - 1;
        let vars = Vars::new(
            self.alloc,
            self.trap,
            self.circuit,
            self.placement,
            bound,
            encoding,
        )?;
        let formula = self.formula(&vars, bound)?;
        let goal = vars.lit(&Claim::so(Item::Goal { time: bound })).var();
        let checker = Checker::new(self.alloc, formula, vars.count(bound), LIMIT - head);
        Ok((checker, goal))
    }
}
