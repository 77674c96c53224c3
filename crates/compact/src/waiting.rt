//! Which barriers wait for an operation.

ghost use Rattle.std.specs.Prelude.{◌≡◌, ◌+◌, ◌<◌, [], ◌∷◌, ◌++◌, length, replicate, OnOk, IfOk};
ghost use Rattle.compact.specs.Orders.{AreOrdered, AreLastPlaces, AreWaiting, ArePassed, IsPlaceNoted, IsWaited, with_waiting};

use crate::levels::Levels;
use crate::wires::Wires;
use circuit_core::Circuit;
use qc_base::{NoMemory, OpId};
use std::alloc::Global;
use std::marker::Model;
use step_rules::Action;

/// Barriers in order. Clauses see the list.
#[derive(Debug, Drop)]
pub(crate) struct Waiting {
    barriers: Vec<OpId>,
}

impl Model for Waiting {
    ghost use Rattle.std.specs.Prelude.{List};
    ghost use Rattle.qc_base.specs.declared.ids.OpId.{OpId as AnOpId};

    ghost Value = { List AnOpId };

    ghost view = { λ w. w.barriers.items };
}

impl Waiting {
    /// No barrier.
    pub fn new(alloc: Global) -> Waiting
        ensures { result ≡ [] }
    {
        Waiting {
            barriers: Vec::new(alloc),
        }
    }

    /// The barriers.
    pub fn barriers(&self) -> &[OpId]
        ensures { result.now ≡ self.now }
    {
        self.barriers.as_slice()
    }

    /// Adds a barrier at the end.
    pub fn push(&mut self, barrier: OpId) -> Result<(), NoMemory>
        ensures { OnOk result (self.new ≡ self.old ++ barrier ∷ []) }
    {
        self.barriers.push(barrier)?;
        Ok(())
    }
}

// The action of that number, counted from 1, is the last so far that performs its operation.
fn note_place(last: &mut Levels, action: &Action, count: usize) -> Result<(), NoMemory>
    ensures { OnOk result (IsPlaceNoted action.now count last.old last.new) }
{
    let Action::Op { op, .. } = action else {
        return Ok(());
    };
    last.raise(op.0 as usize, count)?;
    Ok(())
}

/// For each operation the number of the last action that performs it, counted from 1; 0 where none does.
pub(crate) fn last_places(alloc: Global, actions: &[Action]) -> Result<Levels, NoMemory>
    ensures { IfOk result (λ last. AreLastPlaces actions.now last) }
{
    let mut last = Levels::new(alloc);
    for (place, action) in actions.iter().enumerate() {
        note_place(&mut last, action, place + 1)?;
    }
    Ok(last)
}

// A row for each operation, without a barrier.
fn empty_rows(alloc: Global, count: usize) -> Result<Vec<Waiting>, NoMemory>
    ensures { IfOk result (λ rows. rows.items ≡ replicate count []) }
{
    let mut rows = Vec::new(alloc);
    for i in 0..count {
        rows.push(Waiting::new(alloc))?;
    }
    Ok(rows)
}

// Lets a barrier wait for an operation.
fn wait(rows: &mut Vec<Waiting>, op: OpId, barrier: OpId) -> Result<(), NoMemory>
    ensures { OnOk result (rows.new.items ≡ with_waiting rows.old.items op.0 barrier) }
{
    let number = op.0 as usize;
    if number >= rows.len() {
        return Ok(());
    }
    let row = &mut rows[number];
    row.push(barrier)?;
    Ok(())
}

// Lets a barrier wait for the operation that the action of that number performs, counted from 1.
fn wait_for(
    rows: &mut Vec<Waiting>,
    actions: &[Action],
    count: usize,
    barrier: OpId,
) -> Result<(), NoMemory>
    ensures { OnOk result (IsWaited actions.now count barrier rows.old.items rows.new.items) }
{
    if count == 0 {
        return Ok(());
    }
    if count > actions.len() {
        return Ok(());
    }
    let action = actions[count - 1];
    let Action::Op { op, .. } = action else {
        return Ok(());
    };
    wait(rows, op, barrier)?;
    Ok(())
}

// Counts the operation of that number on its wires, a barrier by where all that has to come before it is performed.
fn pass(
    wires: &mut Wires,
    rows: &mut Vec<Waiting>,
    circuit: &Circuit,
    actions: &[Action],
    last: &Levels,
    number: OpId,
) -> Result<(), NoMemory>
    requires ordered { AreOrdered circuit.now actions.now }
    requires last { AreLastPlaces actions.now last.now }
    requires there { number.0 < length circuit.now.ops }
    requires passed { ArePassed circuit.now actions.now number.0 wires.old rows.old.items }
    ensures { OnOk result (ArePassed circuit.now actions.now (number.0 + 1) wires.new rows.new.items) }
{
    let op = &circuit.ops()[number.0 as usize];
    if op.is_barrier() {
        let count = wires.lift(circuit, number)?;
        wait_for(rows, actions, count, number)?;
        return Ok(());
    }
    wires.raise(circuit, op, last.of(number.0 as usize))?;
    Ok(())
}

/// For each operation the barriers that it settles: with its last action, all that has to come before them is
/// performed.
pub(crate) fn waiting_rows(
    alloc: Global,
    circuit: &Circuit,
    actions: &[Action],
    last: &Levels,
) -> Result<Vec<Waiting>, NoMemory>
    requires ordered { AreOrdered circuit.now actions.now }
    requires last { AreLastPlaces actions.now last.now }
    ensures { IfOk result (λ rows. AreWaiting circuit.now actions.now (length circuit.now.ops) rows.items) }
{
    let count = circuit.ops().len();
    let mut wires = Wires::new(alloc);
    let mut rows = empty_rows(alloc, count)?;
    for number in 0..count as u32 {
        pass(&mut wires, &mut rows, circuit, actions, last, OpId(number))?;
    }
    Ok(rows)
}
