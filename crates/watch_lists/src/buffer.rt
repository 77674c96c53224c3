//! A row of words in a block, with room after it.

ghost use Rattle.std.specs.Prelude.{◌≡◌, ℕ, ◌+◌, ◌-◌, ◌^◌, ◌<◌, ◌≤◌, ◌++◌, ◌∷◌, [], Some, map, length, take, slice_index, slice_set, IfOk, OnOk, OnErr};
ghost use Rattle.watch_lists.specs.Places.{Row, row_of, places_of, AreFilled};

use crate::block::Block;
use qc_base::NoMemory;
use std::alloc::Global;
use std::marker::Model;

/// A row of words that can grow. Contracts see the words, and for how many more there is room.
#[derive(Drop)]
pub struct Buffer {
    alloc: Global,
    block: Option<Block>,
    len: usize,
}

impl Model for Buffer {
    ghost Value = { Row };

    ghost view = { λ b. row_of b.len (places_of b.block) };

    ghost invariant = { λ b. AreFilled b.len (places_of b.block) × (length (places_of b.block) < 2 ^ 61) };
}

impl Buffer {
    /// No words, and no memory.
    pub(crate) fn new(alloc: Global) -> Buffer
        ensures { result ≡ record { words = []; spare = 0 } }
    {
        Buffer {
            alloc,
            block: None,
            len: 0,
        }
    }

    /// How many words there are.
    pub(crate) fn len(&self) -> usize
        ensures len { result ≡ length self.now.words }
        ensures within { length self.now.words + self.now.spare < 2 ^ 61 }
    {
        self.len
    }

    /// How many more words there is room for.
    pub(crate) fn spare(&self) -> usize
        ensures { result ≡ self.now.spare }
    {
        match &self.block {
            Some(block) => block.capacity() - self.len,
            None => 0,
        }
    }

    /// A word.
    pub(crate) fn get(&self, index: usize) -> u32
        requires { index < length self.now.words }
        ensures { result ≡ slice_index self.now.words index }
    {
        match &self.block {
            Some(block) => block.read(index),
            // There is no word without a block.
            None => 0,
        }
    }

    /// Puts another word in its place.
    pub(crate) fn set(&mut self, index: usize, word: u32)
        requires { index < length self.old.words }
        ensures { self.new ≡ record { words = slice_set self.old.words index word; spare = self.old.spare } }
    {
        // There is no word without a block.
        let Some(block) = &mut self.block else {
            return;
        };
        block.write(index, word);
    }

    /// Appends a word for which there is room.
    pub(crate) fn push_reserved(&mut self, word: u32)
        requires { 0 < self.old.spare }
        ensures { self.new ≡ record { words = self.old.words ++ word ∷ []; spare = self.old.spare - 1 } }
    {
        // There is no room without a block.
        let Some(block) = &mut self.block else {
            return;
        };
        block.write(self.len, word);
        self.len += 1;
    }

    /// Makes room for so many more words.
    pub(crate) fn reserve(&mut self, count: usize) -> Result<(), NoMemory>
        ensures ok { OnOk result ((self.new.words ≡ self.old.words) × (count ≤ self.new.spare)) }
        ensures within { OnOk result (length self.new.words + self.new.spare < 2 ^ 61) }
        ensures err { OnErr result (self.new ≡ self.old) }
    {
        if count > self.spare() {
            let larger = self.larger(count)?;
            self.block = Some(larger);
        }
        Ok(())
    }

    /// A block with the same words and room for so many more, at least as many as the words.
    fn larger(&self, count: usize) -> Result<Block, NoMemory>
        ensures { IfOk result (λ places. (take (length self.now.words) places ≡ map Some self.now.words)
            × (length self.now.words + count ≤ length places)) }
    {
        let len = self.len();
        let Some(wanted) = len.checked_add(count) else {
            return Err(NoMemory);
        };
        let mut larger = Block::with_capacity(self.alloc, wanted.max(2 * len))?;
        for index in 0..len {
            larger.write(index, self.get(index));
        }
        Ok(larger)
    }
}
