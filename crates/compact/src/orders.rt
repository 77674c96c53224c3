//! From which step on the operations that have to come before one are done.

ghost use Rattle.std.specs.Prelude.{◌≡◌, ℕ, ◌+◌, ◌<◌, [], ◌∷◌, ◌++◌, length, replicate, take, slice_get, None, Some, List, OnOk, IfOk};
ghost use Rattle.qc_base.specs.declared.ids.PlaceId.{PlaceId};
ghost use Rattle.step_rules.specs.declared.action.Action.{Action as AnAction};
ghost use Rattle.compact.specs.Latest.{IsLast, IsAt};
ghost use Rattle.compact.specs.Orders.{AreOrdered, AreOrders, AreSettled, IsPerformedAt, Precedes};

use crate::levels::Levels;
use crate::waiting::{Waiting, last_places, waiting_rows};
use crate::wires::Wires;
use circuit_core::Circuit;
use qc_base::{NoMemory, OpId};
use std::alloc::Global;
use std::marker::Model;
use step_rules::Action;

/// After how many steps what reaches each wire is done, and what has to come before each operation that was asked for;
/// for each operation its last action, and the barriers that wait for it.
#[derive(Debug, Drop)]
pub(crate) struct Orders {
    wires: Wires,
    ready: Vec<Option<usize>>,
    last: Levels,
    waiting: Vec<Waiting>,
}

impl Model for Orders {
    ghost use Rattle.compact.specs.Orders.{OrdersValue};

    ghost Value = { OrdersValue };

    ghost view = { λ o. record { wires = o.wires; ready = o.ready.items; last = o.last; waiting = o.waiting.items } };
}

// So many operations that were not asked for.
fn no_answers(alloc: Global, count: usize) -> Result<Vec<Option<usize>>, NoMemory>
    ensures { IfOk result (λ ready. ready.items ≡ replicate count None) }
{
    let ready = vec![in alloc; None; count]?;
    Ok(ready)
}

// Counts barriers on their wires, all that has to come before them being done.
fn settle(wires: &mut Wires, circuit: &Circuit, barriers: &[OpId]) -> Result<(), NoMemory>
    ensures { OnOk result (AreSettled circuit.now barriers.now wires.old wires.new) }
{
    for barrier in barriers {
        wires.lift(circuit, *barrier)?;
    }
    Ok(())
}

impl Orders {
    /// Before the first of these actions.
    pub fn new(alloc: Global, circuit: &Circuit, actions: &[Action]) -> Result<Orders, NoMemory>
        requires { AreOrdered circuit.now actions.now }
        ensures { IfOk result (AreOrders circuit.now actions.now [] 0) }
    {
        let last = last_places(alloc, actions)?;
        let waiting = waiting_rows(alloc, circuit, actions, &last)?;
        let ready = no_answers(alloc, circuit.ops().len())?;
        Ok(Orders {
            wires: Wires::new(alloc),
            ready,
            last,
            waiting,
        })
    }

    /// After how many steps all is done that has to come before an operation, which the next action performs.
    pub fn ready(&mut self, circuit: &Circuit, op: OpId) -> usize
        ensures ready { (actions : List AnAction) (times : List ℕ) → AreOrdered circuit.now actions
            → AreOrders circuit.now actions times (length times) self.old → IsPerformedAt actions op.0 (length times)
            → IsLast (IsAt (take (length times) actions) times) (Precedes circuit.now op.0) result }
        ensures orders { (actions : List AnAction) (times : List ℕ) → AreOrdered circuit.now actions
            → AreOrders circuit.now actions times (length times) self.old → IsPerformedAt actions op.0 (length times)
            → AreOrders circuit.now actions times (length times + 1) self.new }
    {
        let number = op.0 as usize;
        let Some(operation) = circuit.op(op) else {
            return 0;
        };
        if number >= self.ready.len() {
            return 0;
        }
        if let Some(level) = self.ready[number] {
            return level;
        }
        let level = self.wires.greatest(circuit, operation);
        self.ready[number] = Some(level);
        level
    }

    /// The last of so many actions performs an operation in the step before that one.
    pub fn note(
        &mut self,
        circuit: &Circuit,
        op: OpId,
        count: usize,
        level: usize,
    ) -> Result<(), NoMemory>
        ensures { OnOk result ((actions : List AnAction) (times : List ℕ) (time : ℕ) → AreOrdered circuit.now actions
            → count ≡ length times + 1 → level ≡ time + 1 → AreOrders circuit.now actions times count self.old
            → IsPerformedAt actions op.0 (length times)
            → AreOrders circuit.now actions (times ++ time ∷ []) count self.new) }
    {
        let number = op.0 as usize;
        let Some(operation) = circuit.op(op) else {
            return Ok(());
        };
        self.wires.raise(circuit, operation, level)?;
        if number >= self.waiting.len() {
            return Ok(());
        }
        if self.last.of(number) > count {
            return Ok(());
        }
        let row = &self.waiting[number];
        settle(&mut self.wires, circuit, row.barriers())?;
        Ok(())
    }
}
