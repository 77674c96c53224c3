//! A list of words that grows.

ghost use Rattle.std.specs.Prelude.{◌≡◌, ℕ, ◌^◌, ◌<◌, ◌≤◌, ◌++◌, ◌∷◌, [], List, length, replicate, slice_index, slice_set, OnOk, OnErr};

use crate::buffer::Buffer;
use qc_base::NoMemory;
use std::alloc::Global;
use std::marker::Model;

/// A list of words over raw memory, fewer than 2^61. Contracts see the list.
#[derive(Drop)]
pub struct Words {
    buffer: Buffer,
}

impl Model for Words {
    ghost Value = { List ℕ };

    ghost view = { λ w. w.buffer.words };
}

impl Words {
    /// An empty list. It takes no memory.
    pub fn new(alloc: Global) -> Words
        ensures { result ≡ [] }
    {
        Words {
            buffer: Buffer::new(alloc),
        }
    }

    /// How many words the list has.
    pub fn len(&self) -> u64
        ensures len { result ≡ length self.now }
        ensures within { result < 2 ^ 61 }
    {
        self.buffer.len() as u64
    }

    /// The word at an index. It takes no memory.
    pub fn get(&self, k: u64) -> u32
        requires { k < length self.now }
        ensures { result ≡ slice_index self.now k }
    {
        self.buffer.get(k as usize)
    }

    /// Puts another word at an index. It takes no memory.
    pub fn set(&mut self, k: u64, word: u32)
        requires { k < length self.old }
        ensures { self.new ≡ slice_set self.old k word }
    {
        self.buffer.set(k as usize, word);
    }

    /// Appends a word. Where there is no room, the memory is doubled. After an `Err` nothing changed.
    pub fn push(&mut self, word: u32) -> Result<(), NoMemory>
        ensures ok { OnOk result (self.new ≡ self.old ++ word ∷ []) }
        ensures within { OnOk result (length self.new < 2 ^ 61) }
        ensures err { OnErr result (self.new ≡ self.old) }
    {
        self.buffer.reserve(1)?;
        self.buffer.push_reserved(word);
        Ok(())
    }

    /// Appends a word so many times.
    pub(crate) fn push_copies(&mut self, word: u32, count: u64) -> Result<(), NoMemory>
        ensures ok { OnOk result (self.new ≡ self.old ++ replicate count word) }
        ensures within { OnOk result (length self.new < 2 ^ 61) }
        ensures err { OnErr result (self.new ≡ self.old) }
    {
        self.buffer.reserve(count as usize)?;
        for _done in 0..count {
            self.buffer.push_reserved(word);
        }
        Ok(())
    }
}
