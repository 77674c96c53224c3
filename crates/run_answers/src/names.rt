//! The names that lines say.

ghost use Rattle.std.specs.Prelude.{◌≡◌, []};
ghost use Rattle.std.specs.Option.{option_map_or};
ghost use Rattle.run_answers.specs.Names.{index_said, label_said_in};

use crate::line::Line;
use circuit_core::{Circuit, Reg};
use qc_base::{PlaceId, Qubit};
use trap_model::Trap;

/// The circuit and the trap that were read, where they were. A line takes the names of their parts from them.
#[derive(Clone, Copy, Debug)]
pub struct Names<'a> {
    pub circuit: Option<&'a Circuit>,
    pub trap: Option<&'a Trap>,
}

impl<'a> Names<'a> {
    ghost use Rattle.std.specs.Prelude.{◌≡◌, None};
    ghost use Rattle.run_answers.specs.Names.{names_of, zone_name};

    /// No names: neither a circuit nor a trap was read.
    pub fn none() -> Names<'a>
        ensures { names_of result ≡ record { circuit = None; trap = None } }
    {
        Names {
            circuit: None,
            trap: None,
        }
    }

    /// The name of a zone, an empty one where no such zone was read.
    pub fn zone(self, zone: PlaceId) -> &'a [u8]
        ensures { result.now ≡ zone_name (names_of self.entry) zone }
    {
        match self.trap {
            Some(trap) => match trap.zones().get(zone.0 as usize) {
                Some(part) => part.name.bytes(),
                None => b"",
            },
            None => b"",
        }
    }
}

/// The register of a number that is counted through these registers, and the index there.
fn register_of(regs: &[Reg], number: u32) -> Option<(&Reg, u32)>
    ensures { option_map_or (λ found. index_said found.0.now.name found.1) result [] ≡ label_said_in regs.now number }
{
    let mut index = number;
    for reg in regs {
        if index < reg.size {
            return Some((reg, index));
        }
        index -= reg.size;
    }
    None
}

impl<'a> Line<'a> {
    ghost use Rattle.std.specs.Prelude.{◌≡◌, ◌+◌, ◌≤◌, ◌++◌, length};
    ghost use Rattle.run_answers.specs.Names.{names_of, index_said, label_said};

    /// The line and then a register's name and, in brackets, an index there.
    fn indexed(self, reg: &'a Reg, index: u32) -> Line<'a>
        requires { length self ≤ 4 }
        ensures { result ≡ self.entry ++ index_said reg.now.name index }
    {
        self.name(reg.name.bytes())
            .text(b"[")
            .number(index as u64)
            .text(b"]")
    }

    /// The line and then the label of a qubit, where it was read.
    pub fn label(self, names: Names<'a>, qubit: Qubit) -> Line<'a>
        requires { length self ≤ 4 }
        ensures said { result ≡ self.entry ++ label_said (names_of names.entry) qubit }
        ensures few { length result ≤ length self.entry + 4 }
    {
        match names.circuit {
            Some(circuit) => match register_of(circuit.qregs(), qubit.0) {
                Some((reg, index)) => self.indexed(reg, index),
                None => self,
            },
            None => self,
        }
    }
}
