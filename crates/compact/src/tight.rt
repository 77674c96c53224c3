//! The tight schedule of a list of actions.

ghost use Rattle.std.specs.Prelude.{◌≡◌, ◌≤◌, ◌∷◌, [], ◌++◌, length, IfOk, OnOk};
ghost use Rattle.step_rules.specs.Placement.{start_of};
ghost use Rattle.step_rules.specs.Setting.{setting_of};
ghost use Rattle.step_rules.specs.Play.{AreLegal, Plays, after_steps, one_at_a_time};
ghost use Rattle.step_rules.specs.Tight.{IsTight};
ghost use Rattle.compact.specs.Tightened.{IsSerial, IsRearranged};
ghost use Rattle.compact.specs.Latest.{AreTimes, AreBuilt, put};

use crate::clock::times_of;
use crate::row::Row;
use circuit_core::Circuit;
use qc_base::NoMemory;
use std::alloc::Global;
use step_rules::{Action, Placement, Schedule, Setting};
use trap_model::Trap;

// A step of one action.
fn row_of(alloc: Global, action: Action) -> Result<Row, NoMemory>
    ensures { IfOk result (λ row. row ≡ action ∷ []) }
{
    let mut row = Row::new(alloc);
    row.add(action)?;
    Ok(row)
}

// Adds an action to the step of that time, or as a step of its own after the last one.
fn place(alloc: Global, rows: &mut Vec<Row>, time: usize, action: Action) -> Result<(), NoMemory>
    requires { time ≤ length rows.old.items }
    ensures { OnOk result (rows.new.items ≡ put rows.old.items time action) }
{
    if time < rows.len() {
        let row = &mut rows[time];
        row.add(action)?;
        return Ok(());
    }
    let row = row_of(alloc, action)?;
    rows.push(row)?;
    Ok(())
}

// The actions by their times.
fn rows_of(
    alloc: Global,
    setting: &Setting,
    actions: &[Action],
    times: &[usize],
) -> Result<Vec<Row>, NoMemory>
    requires serial { IsSerial setting.now actions.now }
    requires times { AreTimes setting.now actions.now times.now }
    ensures { IfOk result (λ rows. AreBuilt setting.now actions.now times.now rows.items) }
{
    let mut rows = Vec::new(alloc);
    for (k, action) in actions.iter().enumerate() {
        place(alloc, &mut rows, times[k], *action)?;
    }
    Ok(rows)
}

// Adds a step of these actions.
fn add_step(schedule: &mut Schedule, actions: &[Action]) -> Result<(), NoMemory>
    ensures { OnOk result (schedule.new ≡ schedule.old ++ actions.now ∷ []) }
{
    schedule.push_step()?;
    for action in actions {
        schedule.push_action(*action)?;
    }
    Ok(())
}

// The schedule of these steps.
fn schedule_of(alloc: Global, rows: &[Row]) -> Result<Schedule, NoMemory>
    ensures { IfOk result (λ schedule. schedule ≡ rows.now) }
{
    let mut schedule = Schedule::new(alloc);
    schedule.reserve(rows.len())?;
    for row in rows {
        add_step(&mut schedule, row.actions())?;
    }
    Ok(schedule)
}

/// The tight schedule of a list of actions: each is in the first step after those of all earlier actions that
/// conflict with it, and the list's order is kept inside a step. By passes over the list, each in linear time.
pub fn tighten(
    alloc: Global,
    trap: &Trap,
    circuit: &Circuit,
    placement: &Placement,
    actions: &[Action],
) -> Result<Schedule, NoMemory>
    requires { IsSerial (setting_of trap.now circuit.now placement.now) actions.now }
    ensures tight { IfOk result
        (λ schedule. IsTight (setting_of trap.now circuit.now placement.now) schedule) }
    ensures legal { let setting = setting_of trap.now circuit.now placement.now in
        IfOk result (λ schedule. AreLegal setting (start_of trap.now placement.now) schedule) }
    ensures same { IfOk result
        (λ schedule. IsRearranged (setting_of trap.now circuit.now placement.now) actions.now schedule) }
    ensures last { let start = start_of trap.now placement.now in IfOk result (λ schedule.
        after_steps trap.now start schedule ≡ after_steps trap.now start (one_at_a_time actions.now)) }
    ensures plays { let setting = setting_of trap.now circuit.now placement.now in
        Plays setting (one_at_a_time actions.now) → IfOk result (λ schedule. Plays setting schedule) }
{
    let setting = Setting {
        trap,
        circuit,
        placement,
    };
    let times = times_of(alloc, &setting, actions)?;
    let known = times.as_slice();
    let rows = rows_of(alloc, &setting, actions, known)?;
    let steps = rows.as_slice();
    let schedule = schedule_of(alloc, steps)?;
    Ok(schedule)
}
