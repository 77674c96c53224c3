//! The pairs and operations that the blocks of variables run over.

ghost use Rattle.std.specs.Prelude.{◌≡◌, ◌+◌, ◌*◌, ◌≤◌, ◌<◌, ◌++◌, map, length, IfOk, OnOk};
ghost use Rattle.step_vars.specs.Lists.{cell, between, pairs_of, performed, able_zones, acts_of, orders_of, forced_before};
ghost use Rattle.step_vars.specs.Tables.{AreBefore};

use crate::abilities::{is_able, is_needed, is_performed};
use crate::cells::{Cell, Cells};
use circuit_core::Circuit;
use qc_base::{NoMemory, OpId, PlaceId};
use std::alloc::Global;
use step_rules::Setting;

// Adds the pairs of an ion with those of greater numbers.
fn push_seconds(first: u32, ions: u32, pairs: &mut Cells) -> Result<(), NoMemory>
    requires first { first < ions }
    requires few { ions ≤ 16 }
    requires rows { pairs.old.rows ≡ ions }
    requires cols { pairs.old.cols ≡ ions }
    requires before { AreBefore first 0 pairs.old.members }
    requires room { length pairs.old.members ≤ 16 * first }
    ensures rows { pairs.new.rows ≡ ions }
    ensures cols { pairs.new.cols ≡ ions }
    ensures ok { OnOk result (pairs.new.members
        ≡ pairs.old.members ++ map (cell first) (between (first + 1) ions)) }
    ensures after { OnOk result (AreBefore (first + 1) 0 pairs.new.members) }
    ensures more { OnOk result (length pairs.new.members ≤ 16 * (first + 1)) }
{
    for second in first + 1..ions {
        pairs.push(first, second)?;
    }
    Ok(())
}

/// The pairs i < j of so many ions.
pub fn pairs(alloc: Global, ions: u32) -> Result<Cells, NoMemory>
    requires { ions ≤ 16 }
    ensures pairs { IfOk result (λ pairs. pairs.members ≡ pairs_of ions) }
    ensures few { IfOk result (λ pairs. length pairs.members ≤ 256) }
{
    let mut pairs = Cells::new(alloc, ions, ions)?;
    for first in 0..ions {
        push_seconds(first, ions, &mut pairs)?;
    }
    Ok(pairs)
}

/// The operations that are no barrier, each with column 0.
pub fn ops(alloc: Global, circuit: &Circuit) -> Result<Cells, NoMemory>
    requires { length circuit.now.ops ≤ 200 }
    ensures ops { IfOk result (λ ops. ops.members ≡ map (λ g. cell g 0) (performed circuit.now)) }
    ensures few { IfOk result (λ ops. length ops.members ≤ 200) }
{
    let count = circuit.ops().len() as u32;
    let mut ops = Cells::new(alloc, count, 1)?;
    for op in 0..count {
        if is_performed(circuit, OpId(op)) {
            ops.push(op, 0)?;
        }
    }
    Ok(ops)
}

// Adds an operation with the zones that are able to perform it.
fn push_zones(setting: &Setting, op: u32, acts: &mut Cells) -> Result<(), NoMemory>
    requires zones { length setting.now.trap.zones ≤ 32 }
    requires op { op < 200 }
    requires row { op < acts.old.rows }
    requires cols { acts.old.cols ≡ length setting.now.trap.zones }
    requires before { AreBefore op 0 acts.old.members }
    requires room { length acts.old.members ≤ 32 * op }
    ensures rows { acts.new.rows ≡ acts.old.rows }
    ensures cols { acts.new.cols ≡ acts.old.cols }
    ensures ok { OnOk result (acts.new.members
        ≡ acts.old.members ++ map (cell op) (able_zones setting.now op)) }
    ensures after { OnOk result (AreBefore (op + 1) 0 acts.new.members) }
    ensures more { OnOk result (length acts.new.members ≤ 32 * (op + 1)) }
{
    let zones = setting.trap.zones().len() as u32;
    for zone in 0..zones {
        if is_able(setting, PlaceId(zone), OpId(op)) {
            acts.push(op, zone)?;
        }
    }
    Ok(())
}

/// Each operation with each zone that is able to perform it.
pub fn acts(alloc: Global, setting: &Setting) -> Result<Cells, NoMemory>
    requires ops { length setting.now.circuit.ops ≤ 200 }
    requires zones { length setting.now.trap.zones ≤ 32 }
    ensures acts { IfOk result (λ acts. acts.members ≡ acts_of setting.now) }
    ensures few { IfOk result (λ acts. length acts.members ≤ 6400) }
{
    let count = setting.circuit.ops().len() as u32;
    let zones = setting.trap.zones().len() as u32;
    let mut acts = Cells::new(alloc, count, zones)?;
    for op in 0..count {
        if is_performed(setting.circuit, OpId(op)) {
            push_zones(setting, op, &mut acts)?;
        }
    }
    Ok(acts)
}

// Adds an operation with those that have to come before it.
fn push_orders(circuit: &Circuit, op: u32, orders: &mut Vec<Cell>) -> Result<(), NoMemory>
    requires { length circuit.now.ops ≤ 200 }
    ensures { OnOk result (orders.new.items
        ≡ orders.old.items ++ map (cell op) (forced_before circuit.now op)) }
{
    let count = circuit.ops().len() as u32;
    for before in 0..count {
        if is_needed(circuit, OpId(before), OpId(op)) {
            orders.push(Cell {
                row: op,
                col: before,
            })?;
        }
    }
    Ok(())
}

/// Each operation with each one that has to come before it.
pub fn orders(alloc: Global, circuit: &Circuit) -> Result<Vec<Cell>, NoMemory>
    requires { length circuit.now.ops ≤ 200 }
    ensures { IfOk result (λ orders. orders.items ≡ orders_of circuit.now) }
{
    let count = circuit.ops().len() as u32;
    let mut orders = Vec::new(alloc);
    for op in 0..count {
        if is_performed(circuit, OpId(op)) {
            push_orders(circuit, op, &mut orders)?;
        }
    }
    Ok(orders)
}
