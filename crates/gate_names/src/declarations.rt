//! Declarations of gates.

ghost use Rattle.std.specs.Prelude.{◌≡◌, ◌==◌, ◌<◌, ℕ, [], length, fold, All, IfOk};
ghost use Rattle.std.specs.List.{list_any};
ghost use Rattle.std.specs.Option.{option_copied};
ghost use Rattle.gate_names.specs.Causes.{Gives, Leaves};
ghost use Rattle.gate_names.specs.Declarations.{formals_fit, counts_fit, positions_of, repeats_position, with_position, call_of, item_of, items_of, opaque_declared, gate_declared};
ghost use Rattle.gate_names.specs.GateOrder.{IsCallBelow};
ghost use Rattle.gate_names.specs.Noted.{noted};

use crate::cause::{Cause, Counted};
use crate::gate::{Gate, Item, Positions};
use crate::gates::{CONTROLLED_NOT, UNIVERSAL};
use crate::names::{Meaning, Names};
use crate::table::Table;
use crate::term::{position, terms_of};
use qasm_read::{BodyItem, Exp};
use qc_base::{Items, Name, NoMemory};
use std::alloc::Global;

/// How many formal parameters and qubits a gate may have together.
const MAX_FORMALS: usize = 16;

/// Notes names, none of which may be there.
fn note_names(alloc: Global, seen: &mut Names, names: &[Name]) -> Result<(), Cause>
    ensures { Leaves result seen.new (noted seen.old names.now) }
{
    for name in names {
        if seen.get(name).is_some() {
            return Err(Cause::Redeclared);
        }
        seen.declare(alloc, name, Meaning::Gate(0))?;
    }
    Ok(())
}

/// No formal occurs twice, and there are not too many.
#[tactic(auto, using(crate::proofs::Formals::noting))]
fn formals_fit(alloc: Global, params: &[Name], qubits: &[Name]) -> Result<(), Cause>
    ensures { Gives (λ u. u) result (formals_fit params.now qubits.now) }
{
    let mut seen = Names::new(alloc);
    note_names(alloc, &mut seen, params)?;
    note_names(alloc, &mut seen, qubits)?;
    if params.len() > MAX_FORMALS || qubits.len() > MAX_FORMALS - params.len() {
        return Err(Cause::TooMany(Counted::Formals));
    }
    Ok(())
}

/// Whether there are as many parameters and qubits as the gate takes.
pub fn counts_fit(gate: Option<&Gate>, params: usize, qubits: usize) -> Result<(), Cause>
    ensures { Gives (λ u. u) result (counts_fit (option_copied gate.entry) params qubits) }
{
    let Some(gate) = gate else {
        return Ok(());
    };
    if params != gate.params() {
        return Err(Cause::Params);
    }
    if qubits != gate.qubits() {
        return Err(Cause::Args);
    }
    Ok(())
}

/// The positions of names among the formal qubits.
fn positions_of(alloc: Global, formals: &[Name], names: &[Name]) -> Result<Vec<usize>, Cause>
    ensures { Gives (λ positions. positions.items) result (positions_of formals.now names.now) }
{
    let mut positions = Vec::new(alloc);
    for name in names {
        positions.push(position(formals, name)?)?;
    }
    Ok(positions)
}

fn contains(positions: &[usize], k: usize) -> bool
    ensures { result ≡ list_any (λ other. k == other) positions.now }
{
    for other in positions {
        if k == *other {
            return true;
        }
    }
    false
}

fn repeats_position(positions: &[usize]) -> bool
    ensures { result ≡ repeats_position positions.now }
{
    for i in 0..positions.len() {
        if contains(&positions[i + 1..], positions[i]) {
            return true;
        }
    }
    false
}

fn distinct(alloc: Global, positions: &[usize]) -> Result<Vec<usize>, NoMemory>
    ensures { IfOk result (λ distinct. distinct.items ≡ fold with_position [] positions.now) }
{
    let mut distinct = Vec::new(alloc);
    for k in positions {
        if !contains(&distinct, *k) {
            distinct.push(*k)?;
        }
    }
    Ok(distinct)
}

/// A call of a gate whose counts fit.
fn call_of(
    alloc: Global,
    params: &[Name],
    gate: usize,
    exps: &[Exp],
    positions: Vec<usize>,
) -> Result<Item, Cause>
    ensures item { Gives (λ item. item) result (call_of params.now gate exps.now positions.items) }
    ensures below { (bound : ℕ) → gate < bound → IfOk result (IsCallBelow bound) }
{
    if repeats_position(&positions) {
        return Err(Cause::Repeated);
    }
    Ok(Item::Call {
        gate,
        params: terms_of(alloc, params, exps)?,
        qubits: Items::from_vec(positions),
    })
}

/// An item of a body in these formals.
fn item_of(
    alloc: Global,
    table: &Table,
    params: &[Name],
    qubits: &[Name],
    item: &BodyItem,
) -> Result<Item, Cause>
    ensures item { Gives (λ item. item) result (item_of table.now params.now qubits.now item.now) }
    ensures below { IfOk result (IsCallBelow (length table.now.gates)) }
{
    let gates = table.gates();
    match item {
        BodyItem::U { params: exps, arg } => {
            counts_fit(Some(&Gate::Universal), exps.items().len(), 1)?;
            let positions = vec![in alloc; position(qubits, arg)?]?;
            call_of(alloc, params, UNIVERSAL, exps.items(), positions)
        }
        BodyItem::Cx { control, target } => {
            let control = position(qubits, control)?;
            let positions = vec![in alloc; control, position(qubits, target)?]?;
            call_of(alloc, params, CONTROLLED_NOT, &[], positions)
        }
        BodyItem::Call {
            gate,
            params: exps,
            args,
        } => {
            let gate = table.gate_named(gate)?;
            counts_fit(
                gates.items().get(gate),
                exps.items().len(),
                args.items().len(),
            )?;
            let positions = positions_of(alloc, qubits, args.items())?;
            call_of(alloc, params, gate, exps.items(), positions)
        }
        BodyItem::Barrier { args } => {
            let positions = positions_of(alloc, qubits, args.items())?;
            Ok(Item::Barrier {
                qubits: Items::from_vec(distinct(alloc, &positions)?),
            })
        }
    }
}

/// The items of a body in these formals.
fn items_of(
    alloc: Global,
    table: &Table,
    params: &[Name],
    qubits: &[Name],
    body: &[BodyItem],
) -> Result<Items<Item>, Cause>
    ensures items { Gives (λ items. items) result (items_of table.now params.now qubits.now body.now) }
    ensures below { IfOk result (All (IsCallBelow (length table.now.gates))) }
{
    let mut items = Vec::new(alloc);
    for item in body {
        items.push(item_of(alloc, table, params, qubits, item)?)?;
    }
    Ok(Items::from_vec(items))
}

/// Declares an opaque gate.
pub fn declare_opaque(
    alloc: Global,
    table: &mut Table,
    name: &Name,
    params: &[Name],
    qubits: &[Name],
) -> Result<(), Cause>
    ensures { Leaves result table.new (opaque_declared table.old name.now params.now qubits.now) }
{
    table.fresh(name)?;
    formals_fit(alloc, params, qubits)?;
    let gate = Gate::Opaque {
        name: name.copy(alloc)?,
        params: params.len(),
        qubits: qubits.len(),
    };
    table.declare_gate(alloc, name, gate)?;
    Ok(())
}

/// Declares a gate with a body.
pub fn declare_gate(
    alloc: Global,
    table: &mut Table,
    name: &Name,
    params: &[Name],
    qubits: &[Name],
    body: &[BodyItem],
) -> Result<(), Cause>
    ensures { Leaves result table.new (gate_declared table.old name.now params.now qubits.now body.now) }
{
    table.fresh(name)?;
    formals_fit(alloc, params, qubits)?;
    let gate = Gate::Body {
        params: params.len(),
        qubits: qubits.len(),
        items: items_of(alloc, table, params, qubits, body)?,
    };
    table.declare_gate(alloc, name, gate)?;
    Ok(())
}
