//! The gates that are declared, by their numbers.

ghost use Rattle.std.specs.Prelude.{◌≡◌, [], ◌∷◌, ◌++◌, length, slice_get, IfOk, OnOk, OnErr};
ghost use Rattle.std.specs.Option.{option_copied};
ghost use Rattle.gate_names.specs.GateOrder.{AreInOrder, CallsBelow};

use crate::gate::Gate;
use qc_base::NoMemory;
use std::alloc::Global;
use std::marker::Model;

/// The number of the gate U.
pub const UNIVERSAL: usize = 0;

/// The number of the gate CX.
pub const CONTROLLED_NOT: usize = 1;

/// Gates in the order of their declaration. Each calls earlier ones only.
#[derive(Drop)]
pub struct Gates {
    gates: Vec<Gate>,
}

impl Model for Gates {
    ghost use Rattle.std.specs.Prelude.{List};
    ghost use Rattle.gate_names.specs.declared.gate.Gate.{Gate};
    ghost use Rattle.gate_names.specs.contracts.term.Term as term;
    ghost use Rattle.gate_names.specs.GateOrder.{AreInOrder};
    ghost use Rattle.std.specs.Coded.{codes};

    ghost Value = { List Gate };

    ghost coded = { Prim.hlevel (codes, term.the_row.coded) };

    ghost view = { λ g. g.gates.items };

    ghost invariant = { λ g. AreInOrder g.gates.items };
}

impl Gates {
    /// No gate.
    pub fn new(alloc: Global) -> Gates
        ensures { result ≡ [] }
    {
        Gates {
            gates: Vec::new(alloc),
        }
    }

    /// The gates, in order.
    pub fn items(&self) -> &[Gate]
        ensures items { result.now ≡ self.now }
        ensures in_order { AreInOrder self.now }
    {
        self.gates.as_slice()
    }

    /// The gate of that number.
    pub fn get(&self, number: usize) -> Option<&Gate>
        ensures { option_copied result ≡ slice_get self.now number }
    {
        self.gates.get(number)
    }

    /// Gives a gate the next number.
    pub fn push(&mut self, gate: Gate) -> Result<(), NoMemory>
        requires { CallsBelow (length self.old) gate }
        ensures ok { OnOk result (self.new ≡ self.old ++ gate ∷ []) }
        ensures err { OnErr result (self.new ≡ self.old) }
    {
        self.gates.push(gate)?;
        Ok(())
    }
}
