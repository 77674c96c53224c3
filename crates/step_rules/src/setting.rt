//! What is compiled.

use crate::placement::Placement;
use circuit_core::Circuit;
use std::marker::Model;
use trap_model::Trap;

/// A trap, a circuit, and the placement from which a schedule is played. Clauses see the record of the three.
#[derive(Drop)]
pub struct Setting<'a> {
    pub trap: &'a Trap,
    pub circuit: &'a Circuit,
    pub placement: &'a Placement,
}

impl<'a> Model for Setting<'a> {
    ghost use Rattle.step_rules.specs.Setting.{SettingValue, setting_of};
    ghost use Rattle.circuit_core.specs.contracts.angle.Angle as angle;
    ghost use Rattle.std.specs.Coded.{codes};

    ghost Value = { SettingValue };

    ghost coded = { Prim.hlevel (codes, angle.the_row.coded) };

    ghost view = { λ s. setting_of s.trap.now s.circuit.now s.placement.now };
}
