//! A block of memory for words: where it begins, and the owner of its places. Only this file touches memory.
ghost use Rattle.std.specs.Prelude.{◌≡◌, ℕ, ◌*◌, ◌^◌, ◌<◌, List, Option, Some, None, length, replicate, get_or, slice_set, IfOk};
ghost use denote.RawPtr.{Ptr};
ghost use Rattle.std.specs.declared.alloc.Global.{Global as Heap};
ghost use Rattle.watch_lists.specs.Block.{block_owned, block_lent};

use std::alloc::{AllocError, Allocator, Global};
use std::marker::Model;
use std::mem::{align_of, size_of};

/// Where a block begins. It owns nothing.
#[derive(Clone, Copy)]
pub struct Base {
    ptr: *mut u32,
}

/// The owner of a block's places, with the right to free the block. A place holds a word or nothing. It takes
/// no space.
pub struct Cells {
    ghost alloc: { Heap },
    ghost at: { Ptr },
    ghost places: { List (Option ℕ) },
}

impl Model for Cells {
    ghost also_owns = { λ c. block_owned c.alloc c.at c.places };

    ghost also_shares = { λ c _ κ. block_lent c.at c.places κ };
}

/// A block of `len` empty places.
pub(crate) fn allocate(alloc: &Global, len: usize) -> Result<(Base, Cells), AllocError>
    requires { len * 4 < 2 ^ 63 }
    ensures { IfOk result (λ r.
        (r.1.at ≡ r.0.ptr) × (r.1.places ≡ replicate len None) × (r.1.alloc ≡ alloc.now)) }
{
    match alloc.allocate(len * size_of::<u32>(), align_of::<u32>()) {
        Ok(block) => {
            let base = Base {
                ptr: block as *mut u32,
            };
            Ok((base, Cells {}))
        }
        Err(error) => Err(error),
    }
}

/// Gives the block back.
pub(crate) fn free(alloc: &Global, base: Base, len: usize, cells: Cells)
    requires { (cells.at ≡ base.ptr) × (length cells.places ≡ len) × (cells.alloc ≡ alloc.now) }
{
    let Cells {} = cells;
    unsafe {
        alloc.deallocate(
            base.ptr as *mut u8,
            len * size_of::<u32>(),
            align_of::<u32>(),
        );
    }
}

impl Cells {
    /// Puts a word into a place, whatever the place holds.
    pub(crate) fn write(&mut self, base: Base, index: usize, word: u32)
        requires { (base.ptr ≡ self.old.at) × (index < length self.old.places) }
        ensures { (self.new.alloc ≡ self.old.alloc) × (self.new.at ≡ self.old.at)
            × (self.new.places ≡ slice_set self.old.places index (Some word)) }
    {
        unsafe { base.ptr.add(index).write(word) }
    }

    /// The word in a place that holds one.
    pub(crate) fn read(&self, base: Base, index: usize) -> u32
        requires { (base.ptr ≡ self.now.at) × ((word : ℕ) × (get_or self.now.places index None ≡ Some word)) }
        ensures { get_or self.now.places index None ≡ Some result }
    {
        unsafe { *base.ptr.add(index) }
    }
}
