//! The clauses of a part.

ghost use Rattle.std.specs.Prelude.{◌≡◌, ◌+◌, ◌≤◌, ◌++◌, IfOk, OnOk, OnErr};
ghost use Rattle.at_most.specs.AtMost.{AddsPrefix};
ghost use Rattle.step_rules.specs.Placement.{IsPlacement};
ghost use Rattle.step_rules.specs.Setting.{setting_of};
ghost use Rattle.step_vars.specs.Encoding.{IsSmall, vars_of, layer_of, goal_of, step_part, start_clauses, clauses_of, helper_count};
ghost use Rattle.step_vars.specs.Numbering.{first_helper};
ghost use Rattle.clause_families.specs.Encoded.{AreEncodedBounds, AreEncodedClauses};
ghost use Rattle.step_clauses.specs.Emission.{AreVarsOf, IsStep, HelpersFit, half_of, first_half, second_half, second_first};
ghost use Rattle.clause_families.specs.Tables.{AreTables};

use crate::operations::add_goal;
use crate::start::add_start;
use crate::step::{add_operations, add_order, add_passing, happen_at_once, places_hold};
use circuit_core::Circuit;
use clause_families::{Clauses, Tables, Times, push_bounds, push_clauses, rows};
use qc_base::NoMemory;
use sat_base::Formula;
use std::alloc::Global;
use step_rules::{Placement, Setting};
use step_vars::{Bound, Vars};
use trap_model::Trap;

// Adds lists of which at most so many may hold, and then clauses. Answers the next free number.
fn push_half(
    alloc: Global,
    vars: &Vars,
    bounds: &[Bound],
    first: u32,
    clauses: &Clauses,
    out: &mut Formula,
) -> Result<u32, NoMemory>
    requires bounds { AreEncodedBounds vars.now first bounds.now }
    requires clauses { AreEncodedClauses vars.now clauses.now }
    ensures next { IfOk result (λ next. next ≡ first + helper_count vars.now.encoding bounds.now) }
    ensures ok { OnOk result (out.new ≡ out.old ++ half_of vars.now first bounds.now clauses.now) }
    ensures err { OnErr result (AddsPrefix out.old out.new (half_of vars.now first bounds.now clauses.now)) }
{
    let next = push_bounds(alloc, vars, bounds, first, out)?;
    push_clauses(alloc, vars, clauses.items(), out)?;
    Ok(next)
}

// Adds what places hold, and how ions pass.
fn push_first_half(
    alloc: Global,
    vars: &Vars,
    setting: &Setting,
    tables: &Tables,
    times: Times,
    first: u32,
    out: &mut Formula,
) -> Result<u32, NoMemory>
    requires vars { AreVarsOf vars.now setting.now }
    requires tables { AreTables setting.now tables.now }
    requires step { IsStep vars.now times.before times.time }
    requires first { first ≡ first_helper vars.now.numbering times.time }
    requires room { HelpersFit vars.now times.time }
    ensures next { IfOk result (λ next. next ≡ second_first vars.now setting.now times.time) }
    ensures ok { OnOk result (out.new ≡ out.old ++ first_half vars.now setting.now times.before times.time) }
    ensures err { OnErr result (AddsPrefix out.old out.new
        (first_half vars.now setting.now times.before times.time)) }
{
    let bounds = places_hold(alloc, setting, tables, times.time)?;
    let mut clauses = Clauses::new(alloc);
    add_passing(alloc, setting, tables, times, &mut clauses)?;
    push_half(alloc, vars, &bounds, first, &clauses, out)
}

// Adds what happens at most once, the order of ions, and operations.
fn push_second_half(
    alloc: Global,
    vars: &Vars,
    setting: &Setting,
    tables: &Tables,
    times: Times,
    next: u32,
    out: &mut Formula,
) -> Result<(), NoMemory>
    requires vars { AreVarsOf vars.now setting.now }
    requires tables { AreTables setting.now tables.now }
    requires step { IsStep vars.now times.before times.time }
    requires room { HelpersFit vars.now times.time }
    requires next { next ≡ second_first vars.now setting.now times.time }
    ensures ok { OnOk result (out.new ≡ out.old ++ second_half vars.now setting.now times.before times.time) }
    ensures err { OnErr result (AddsPrefix out.old out.new
        (second_half vars.now setting.now times.before times.time)) }
{
    let bounds = happen_at_once(alloc, setting, tables, times.time)?;
    let mut clauses = Clauses::new(alloc);
    add_order(alloc, setting, tables, times, &mut clauses)?;
    add_operations(alloc, setting, tables, times, &mut clauses)?;
    push_half(alloc, vars, &bounds, next, &clauses, out)?;
    Ok(())
}

// Adds the clauses of a step.
fn push_step(
    alloc: Global,
    vars: &Vars,
    setting: &Setting,
    tables: &Tables,
    times: Times,
    out: &mut Formula,
) -> Result<(), NoMemory>
    requires vars { AreVarsOf vars.now setting.now }
    requires tables { AreTables setting.now tables.now }
    requires step { IsStep vars.now times.before times.time }
    ensures ok { OnOk result (out.new
        ≡ out.old ++ step_part vars.now.numbering setting.now vars.now.encoding times.before times.time) }
    ensures err { OnErr result (AddsPrefix out.old out.new
        (step_part vars.now.numbering setting.now vars.now.encoding times.before times.time)) }
{
    let first = vars.first_helper(times.time);
    let next = push_first_half(alloc, vars, setting, tables, times, first, out)?;
    push_second_half(alloc, vars, setting, tables, times, next, out)
}

// Adds the clauses of the time before the first step.
fn push_start(
    alloc: Global,
    vars: &Vars,
    setting: &Setting,
    tables: &Tables,
    out: &mut Formula,
) -> Result<(), NoMemory>
    requires vars { AreVarsOf vars.now setting.now }
    requires tables { AreTables setting.now tables.now }
    requires placement { IsPlacement setting.now.trap setting.now.circuit setting.now.placement }
    ensures ok { OnOk result (out.new
        ≡ out.old ++ clauses_of vars.now.numbering (start_clauses setting.now)) }
    ensures err { OnErr result (AddsPrefix out.old out.new
        (clauses_of vars.now.numbering (start_clauses setting.now))) }
{
    let mut clauses = Clauses::new(alloc);
    add_start(alloc, setting, tables, &mut clauses)?;
    push_clauses(alloc, vars, clauses.items(), out)
}

/// Adds the clauses of part t, but those of its goal. After an `Err` a prefix of them was added.
pub fn layer(
    alloc: Global,
    vars: &Vars,
    trap: &Trap,
    circuit: &Circuit,
    placement: &Placement,
    t: u32,
    out: &mut Formula,
) -> Result<(), NoMemory>
    requires vars { vars.now
        ≡ vars_of (setting_of trap.now circuit.now placement.now) vars.now.encoding vars.now.steps }
    requires small { IsSmall (setting_of trap.now circuit.now placement.now) vars.now.steps }
    requires placement { IsPlacement trap.now circuit.now placement.now }
    requires t { t ≤ vars.now.steps }
    ensures ok { OnOk result (out.new
        ≡ out.old ++ layer_of (setting_of trap.now circuit.now placement.now) vars.now.encoding t) }
    ensures err { OnErr result (AddsPrefix out.old out.new
        (layer_of (setting_of trap.now circuit.now placement.now) vars.now.encoding t)) }
{
    let setting = Setting {
        trap,
        circuit,
        placement,
    };
    let tables = Tables::new(alloc, &setting, vars)?;
    if t == 0 {
        push_start(alloc, vars, &setting, &tables, out)
    } else {
        let times = Times {
            before: t - 1,
            time: t,
        };
        push_step(alloc, vars, &setting, &tables, times, out)
    }
}

/// Adds the clauses of the goal of part t. After an `Err` a prefix of them was added.
pub fn goal(
    alloc: Global,
    vars: &Vars,
    trap: &Trap,
    circuit: &Circuit,
    placement: &Placement,
    t: u32,
    out: &mut Formula,
) -> Result<(), NoMemory>
    requires vars { vars.now
        ≡ vars_of (setting_of trap.now circuit.now placement.now) vars.now.encoding vars.now.steps }
    requires t { t ≤ vars.now.steps }
    ensures ok { OnOk result (out.new
        ≡ out.old ++ goal_of (setting_of trap.now circuit.now placement.now) vars.now.encoding t) }
    ensures err { OnErr result (AddsPrefix out.old out.new
        (goal_of (setting_of trap.now circuit.now placement.now) vars.now.encoding t)) }
{
    let ops = rows(alloc, vars.ops())?;
    let mut clauses = Clauses::new(alloc);
    add_goal(t, &ops, &mut clauses)?;
    push_clauses(alloc, vars, clauses.items(), out)
}
