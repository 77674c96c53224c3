//! The names that a file declared.

ghost use Rattle.std.specs.Prelude.{◌≡◌, [], ◌∷◌, ◌++◌, None, OnOk, OnErr};
ghost use Rattle.gate_names.specs.Entries.{meaning_in};

use indexmap::IndexMap;
use qc_base::{Name, NoMemory};
use std::alloc::Global;
use std::marker::Model;

/// What a name means: a register, by its first qubit or bit and its size, or a gate, by its number.
#[derive(Clone, Copy)]
pub enum Meaning {
    Quantum { first: u16, size: u16 },
    Classical { creg: u16, first: u16, size: u16 },
    Gate(usize),
}

/// Names with their meanings, in the order of their declaration.
#[derive(Drop)]
pub struct Names {
    meanings: IndexMap<Vec<u8>, Meaning>,
}

impl Model for Names {
    ghost use Rattle.std.specs.Prelude.{map};
    ghost use Rattle.gate_names.specs.Entries.{Entries};

    ghost Value = { Entries };

    ghost view = { λ n. map (λ e. (e.0.items, e.1)) n.meanings.entries };
}

impl Names {
    /// No name.
    pub fn new(alloc: Global) -> Names
        ensures { result ≡ [] }
    {
        Names {
            meanings: IndexMap::new(alloc),
        }
    }

    /// What the name means.
    pub fn get(&self, name: &Name) -> Option<Meaning>
        ensures { result ≡ meaning_in self.now name.now }
    {
        self.meanings.get(name.bytes()).copied()
    }

    /// Gives a name that is not there a meaning.
    pub fn declare(&mut self, alloc: Global, name: &Name, meaning: Meaning) -> Result<(), NoMemory>
        requires { meaning_in self.old name.now ≡ None }
        ensures ok { OnOk result (self.new ≡ self.old ++ (name.now, meaning) ∷ []) }
        ensures err { OnErr result (self.new ≡ self.old) }
    {
        let key = Vec::from_slice(alloc, name.bytes())?;
        self.meanings.insert(key, meaning)?;
        Ok(())
    }
}
