//! A list of links, each kept in two words.

ghost use Rattle.std.specs.Prelude.{◌≡◌, ℕ, ◌+◌, ◌-◌, ◌*◌, ◌^◌, ◌<◌, ◌≤◌, ◌++◌, [], List, Option, None, length, replicate, get_or, slice_set, OnOk, OnErr};
ghost use Rattle.std.specs.Option.{IfSome};
ghost use Rattle.watch_lists.specs.Links.{links_in};

use crate::words::Words;
use qc_base::NoMemory;
use std::alloc::Global;
use std::marker::Model;

/// The number that marks an end.
const END: u64 = u64::MAX;

/// How many numbers a word can be.
const WORDS: u64 = 1 << 32;

/// A list whose items are links or mark an end. Contracts see the items.
#[derive(Drop)]
pub struct Links {
    words: Words,
}

impl Model for Links {
    ghost Value = { List (Option ℕ) };

    ghost view = { λ l. links_in l.words };

    ghost invariant = { λ l. (length l.words ≡ 2 * length (links_in l.words)) × (length l.words < 2 ^ 61) };
}

impl Links {
    /// No items.
    pub(crate) fn new(alloc: Global) -> Links
        ensures { result ≡ [] }
    {
        Links {
            words: Words::new(alloc),
        }
    }

    /// How many items there are.
    pub(crate) fn len(&self) -> u64
        ensures len { result ≡ length self.now }
        ensures within { result < 2 ^ 60 }
    {
        self.words.len() / 2
    }

    /// The link at an index, if the item is no end.
    pub(crate) fn get(&self, at: u64) -> Option<u64>
        requires { at < length self.now }
        ensures { result ≡ get_or self.now at None }
    {
        let low = u64::from(self.words.get(2 * at));
        let high = u64::from(self.words.get(2 * at + 1));
        let number = low + WORDS * high;
        if number == END { None } else { Some(number) }
    }

    /// Puts another item at an index.
    pub(crate) fn set(&mut self, at: u64, link: Option<u64>)
        requires at { at < length self.old }
        requires no_mark { IfSome link (λ number. number < 2 ^ 64 - 1) }
        ensures { self.new ≡ slice_set self.old at link }
    {
        let number = link.unwrap_or(END);
        self.words.set(2 * at, (number % WORDS) as u32);
        self.words.set(2 * at + 1, (number / WORDS) as u32);
    }

    /// Appends so many ends.
    pub(crate) fn push_ends(&mut self, count: u64) -> Result<(), NoMemory>
        requires { count < 2 ^ 60 }
        ensures ok { OnOk result (self.new ≡ self.old ++ replicate count None) }
        ensures within { OnOk result (length self.new < 2 ^ 60) }
        ensures err { OnErr result (self.new ≡ self.old) }
    {
        self.words.push_copies(u32::MAX, 2 * count)?;
        Ok(())
    }
}
