//! The ions of one place.

ghost use Rattle.std.specs.Prelude.{◌≡◌, ◌+◌, ◌≤◌, ◌<◌, [], ◌∷◌, ◌++◌, length, swap, IfOk};
ghost use Rattle.ion_chain.specs.ChainValue.{room_of};
ghost use Rattle.ion_chain.specs.Passing.{outward, leaving, left, joined};

use qc_base::{End, Ion, NoMemory};
use smallvec::SmallVec;
use std::alloc::Global;
use std::marker::Model;
use std::mem;

/// Ions in a row from end a to end b, with room for more.
#[derive(Debug, Drop)]
pub struct Chain {
    ions: SmallVec<Ion, 4>,
}

impl Model for Chain {
    ghost use Rattle.std.specs.Prelude.{◌-◌, ◌≤◌, length};
    ghost use Rattle.ion_chain.specs.ChainValue.{ChainValue};

    ghost Value = { ChainValue };

    ghost view = { λ c. record { ions = c.ions.items; spare = c.ions.capacity - length c.ions.items } };

    ghost invariant = { λ c. length c.ions.items ≤ c.ions.capacity };
}

impl Chain {
    /// An empty chain with room for at least so many ions.
    pub fn with_room(alloc: Global, room: u32) -> Result<Chain, NoMemory>
        ensures empty { IfOk result (λ chain. chain.ions ≡ []) }
        ensures spare { IfOk result (λ chain. room ≤ chain.spare) }
    {
        Ok(Chain {
            ions: SmallVec::with_capacity(alloc, room as usize)?,
        })
    }

    /// The ions from end a to end b.
    pub fn ions(&self) -> &[Ion]
        ensures { result.now ≡ self.now.ions }
    {
        self.ions.as_slice()
    }

    /// Adds an ion at end b.
    pub fn add(&mut self, ion: Ion)
        requires { 1 ≤ self.old.spare }
        ensures ions { self.new.ions ≡ self.old.ions ++ ion ∷ [] }
        ensures room { room_of self.new ≡ room_of self.old }
    {
        self.ions.push_reserved(ion);
    }

    /// Passes so many ions from an end of this chain into an end of the other.
    pub fn pass(&mut self, end: End, count: u32, other: &mut Chain, into: End)
        requires enough { count ≤ length self.old.ions }
        requires spare { count ≤ other.old.spare }
        ensures left { self.new.ions ≡ left end count self.old.ions }
        ensures joined { other.new.ions ≡ joined into (leaving end count self.old.ions) other.old.ions }
        ensures room { room_of self.new ≡ room_of self.old }
        ensures other_room { room_of other.new ≡ room_of other.old }
    {
        for _turn in 0..count {
            let ion = self.take(end);
            other.put(into, ion);
        }
    }

    /// Exchanges the ions at this index and the next.
    pub fn swap_at(&mut self, index: u32)
        requires { index + 1 < length self.old.ions }
        ensures ions { self.new.ions ≡ swap self.old.ions index (index + 1) }
        ensures room { room_of self.new ≡ room_of self.old }
    {
        let index = index as usize;
        self.ions.as_mut_slice().swap(index, index + 1);
    }

    // Takes the ion at this end.
    fn take(&mut self, end: End) -> Ion
        requires { 0 < length self.old.ions }
        ensures ions { outward end self.old.ions ≡ outward end self.new.ions ++ result ∷ [] }
        ensures len { length self.new.ions + 1 ≡ length self.old.ions }
        ensures spare { self.new.spare ≡ self.old.spare + 1 }
    {
        match end {
            End::A => self.ions.remove(0),
            End::B => self.ions.pop().unwrap(),
        }
    }

    // Puts an ion at this end.
    fn put(&mut self, end: End, ion: Ion)
        requires { 1 ≤ self.old.spare }
        ensures ions { outward end self.new.ions ≡ outward end self.old.ions ++ ion ∷ [] }
        ensures len { length self.new.ions ≡ length self.old.ions + 1 }
        ensures spare { self.new.spare + 1 ≡ self.old.spare }
    {
        match end {
            End::A => self.ions.insert(0, ion).unwrap(),
            End::B => self.ions.push_reserved(ion),
        }
    }

    // The chain, in whose place is one without room.
    pub(crate) fn lift(&mut self) -> Chain
        ensures { result ≡ self.old }
    {
        let blank = Chain {
            ions: SmallVec::new(*self.ions.allocator()),
        };
        mem::replace(self, blank)
    }
}
