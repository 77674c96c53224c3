//! A block of places for words that is given back when it is dropped.

ghost use Rattle.std.specs.Prelude.{◌≡◌, ℕ, ◌*◌, ◌^◌, ◌<◌, ◌≤◌, List, Option, Some, None, length, replicate, get_or, slice_set, IfOk};

use crate::cells::{Base, Cells, allocate, free};
use qc_base::NoMemory;
use std::alloc::Global;
use std::marker::Model;

/// The most words that one allocation can hold.
const MOST_WORDS: usize = (1 << 61) - 1;

/// A block of places, each with a word or empty. Contracts see the places.
pub struct Block {
    alloc: Global,
    base: Base,
    cells: Cells,
    capacity: usize,
}

impl Model for Block {
    ghost Value = { List (Option ℕ) };

    ghost view = { λ b. b.cells.places };

    ghost invariant = { λ b. (b.cells.at ≡ b.base.ptr) × (b.cells.alloc ≡ b.alloc)
        × (length b.cells.places ≡ b.capacity) × (b.capacity < 2 ^ 61) };
}

impl Block {
    /// A block of so many empty places.
    pub(crate) fn with_capacity(alloc: Global, capacity: usize) -> Result<Block, NoMemory>
        ensures { IfOk result (λ block. block ≡ replicate capacity None) }
    {
        if capacity > MOST_WORDS {
            return Err(NoMemory);
        }
        let (base, cells) = allocate(&alloc, capacity)?;
        Ok(Block {
            alloc,
            base,
            cells,
            capacity,
        })
    }

    /// How many places the block has.
    pub(crate) fn capacity(&self) -> usize
        ensures capacity { result ≡ length self.now }
        ensures within { result < 2 ^ 61 }
    {
        self.capacity
    }

    /// The word in a place that holds one.
    pub(crate) fn read(&self, index: usize) -> u32
        requires { (word : ℕ) × (get_or self.now index None ≡ Some word) }
        ensures { get_or self.now index None ≡ Some result }
    {
        self.cells.read(self.base, index)
    }

    /// Puts a word into a place, whatever the place holds.
    pub(crate) fn write(&mut self, index: usize, word: u32)
        requires { index < length self.old }
        ensures { self.new ≡ slice_set self.old index (Some word) }
    {
        self.cells.write(self.base, index, word);
    }
}

impl Drop for Block {
    fn drop(self) {
        let Block {
            alloc,
            base,
            cells,
            capacity,
        } = self;
        free(&alloc, base, capacity, cells);
    }
}
