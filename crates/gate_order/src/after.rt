//! For each operation those that it comes right before.

ghost use Rattle.std.specs.Prelude.{◌≡◌, ◌<◌, ◌≤◌, ◌^◌, ◌++◌, ◌∷◌, [], length, replicate, IfOk, OnOk};
ghost use Rattle.circuit_core.specs.Nearest.{IsNearestTable};
ghost use Rattle.gate_order.specs.Keeping.{AreAfter, AreBelow, AreAdded};

use circuit_core::{Circuit, Nearest};
use qc_base::{NoMemory, OpId};
use std::alloc::Global;
use std::marker::Model;

/// A list of the numbers of operations. Clauses see the list.
#[derive(Debug, Drop)]
pub(crate) struct Numbers {
    items: Vec<u32>,
}

impl Model for Numbers {
    ghost use Rattle.std.specs.Prelude.{List, ℕ};

    ghost Value = { List ℕ };

    ghost view = { λ n. n.items.items };
}

impl Numbers {
    // No numbers.
    fn new(alloc: Global) -> Numbers
        ensures { result ≡ [] }
    {
        Numbers {
            items: Vec::new(alloc),
        }
    }

    // Adds a number at the end.
    fn push(&mut self, number: u32) -> Result<(), NoMemory>
        ensures { OnOk result (self.new ≡ self.old ++ number ∷ []) }
    {
        self.items.push(number)?;
        Ok(())
    }

    /// The numbers.
    pub(crate) fn items(&self) -> &[u32]
        ensures { result.now ≡ self.now }
    {
        self.items.as_slice()
    }
}

// An empty list for each operation.
fn empty_lists(alloc: Global, count: usize) -> Result<Vec<Numbers>, NoMemory>
    ensures { IfOk result (λ lists. lists.items ≡ replicate count []) }
{
    let mut lists = Vec::new(alloc);
    for _op in 0..count {
        lists.push(Numbers::new(alloc))?;
    }
    Ok(lists)
}

// Adds the operation to the lists of those right before it.
fn add(lists: &mut [Numbers], near: &[OpId], number: u32) -> Result<(), NoMemory>
    requires { AreBelow (length lists.old) near.now }
    ensures { OnOk result (AreAdded near.now (length near.now) number lists.old lists.new) }
{
    for before in near {
        let list = &mut lists[before.0 as usize];
        list.push(number)?;
    }
    Ok(())
}

/// For each operation those that it comes right before, by one pass over the circuit.
pub(crate) fn after(
    alloc: Global,
    circuit: &Circuit,
    nearest: &Nearest,
) -> Result<Vec<Numbers>, NoMemory>
    requires { IsNearestTable circuit.now nearest.now }
    ensures { IfOk result (λ after. AreAfter nearest.now (length nearest.now) after.items) }
{
    let count = circuit.ops().len();
    let mut lists = empty_lists(alloc, count)?;
    for number in 0..count as u32 {
        add(&mut lists, nearest.of(OpId(number)), number)?;
    }
    Ok(lists)
}
