//! The schedule of a model.

ghost use Rattle.std.specs.Prelude.{◌≡◌, ◌+◌, ◌<◌, ◌≤◌, ◌∷◌, [], ◌++◌, length, map, IfOk, OnOk};
ghost use Rattle.sat_base.specs.Valuation.{valuation_of};
ghost use Rattle.step_rules.specs.Config.{IsConfigOf};
ghost use Rattle.step_rules.specs.Placement.{IsPlacement};
ghost use Rattle.step_rules.specs.Setting.{setting_of};
ghost use Rattle.step_rules.specs.Steps.{IsLegal, after_step};
ghost use Rattle.step_vars.specs.Encoding.{IsSmall, vars_of};
ghost use Rattle.step_vars.specs.Numbering.{before};
ghost use Rattle.step_facts.specs.Activities.{activities_of};
ghost use Rattle.step_facts.specs.ToSchedule.{schedule_of as schedule_of_facts, step_of};
ghost use Rattle.step_facts.specs.Theorems.{IsScheduleOf};
ghost use Rattle.step_models.specs.Models.{facts_of, IsModel};
ghost use Rattle.extract.specs.Reading.{CanRead, facts_in, lists_in, seen};

use crate::activities::activities;
use crate::reader::Reader;
use circuit_core::Circuit;
use qc_base::NoMemory;
use sat_base::Assignment;
use std::alloc::Global;
use step_models::models_are_schedules;
use step_rules::{Action, Config, Placement, Schedule, Setting, traps_and_circuits_are_sound};
use step_vars::{Vars, parts_are_in_order};
use trap_model::Trap;

// Adds a step of these actions.
fn add_step(schedule: &mut Schedule, actions: &[Action]) -> Result<(), NoMemory>
    ensures { OnOk result (schedule.new ≡ schedule.old ++ actions.now ∷ []) }
{
    schedule.push_step()?;
    for action in actions {
        schedule.push_action(*action)?;
    }
    Ok(())
}

// Does what the actions of a legal step do.
fn perform(setting: &Setting, config: &mut Config, actions: &[Action])
    requires config { IsConfigOf setting.now.trap config.old }
    requires legal { IsLegal setting.now config.old.lists actions.now }
    ensures lists { config.new.lists ≡ after_step setting.now.trap config.old.lists actions.now }
    ensures config { IsConfigOf setting.now.trap config.new }
{
    for action in actions {
        config.apply(setting.trap, action);
    }
}

/// The schedule of t steps that a model of the parts 0 to t says: in each step the channels in use in order, then
/// swaps by zone, then operations by zone.
pub fn schedule_of(
    alloc: Global,
    vars: &Vars,
    trap: &Trap,
    circuit: &Circuit,
    placement: &Placement,
    values: &Assignment,
    t: u32,
) -> Result<Schedule, NoMemory>
    requires vars { vars.now
        ≡ vars_of (setting_of trap.now circuit.now placement.now) vars.now.encoding vars.now.steps }
    requires small { IsSmall (setting_of trap.now circuit.now placement.now) vars.now.steps }
    requires placed { IsPlacement trap.now circuit.now placement.now }
    requires time { t ≤ vars.now.steps }
    requires values { before vars.now.numbering (t + 1) ≤ length values.now }
    requires model { IsModel (setting_of trap.now circuit.now placement.now) vars.now.encoding t
        (valuation_of values.now) }
    ensures schedule { IfOk result (λ schedule. schedule
        ≡ schedule_of_facts (setting_of trap.now circuit.now placement.now)
        (facts_of (setting_of trap.now circuit.now placement.now) vars.now.encoding
        (valuation_of values.now)) t) }
    ensures plays { IfOk result (IsScheduleOf (setting_of trap.now circuit.now placement.now)
        (facts_of (setting_of trap.now circuit.now placement.now) vars.now.encoding
        (valuation_of values.now)) t) }
{
    traps_and_circuits_are_sound(trap, circuit);
    models_are_schedules();
    parts_are_in_order();
    let setting = Setting {
        trap,
        circuit,
        placement,
    };
    let activities = activities(alloc, &setting, vars)?;
    let mut config = Config::start(alloc, trap, placement)?;
    let mut schedule = Schedule::new(alloc);
    for time in 0..t {
        let reader = Reader {
            vars,
            values,
            config: &config,
            step: time + 1,
        };
        let actions = reader.actions(alloc, &activities)?;
        add_step(&mut schedule, &actions)?;
        perform(&setting, &mut config, &actions);
    }
    Ok(schedule)
}
