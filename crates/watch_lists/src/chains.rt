//! Lists of links that are kept as chains.

ghost use Rattle.std.specs.Prelude.{◌≡◌, ℕ, ◌+◌, ◌^◌, ◌<◌, ◌≤◌, ◌++◌, ◌∷◌, [], List, Option, length, replicate, slice_get, slice_set, slice_index_or, OnOk, OnErr};
ghost use Rattle.std.specs.Option.{IfSome};
ghost use Rattle.watch_lists.specs.Chains.{Chained, AreChains, Follows, IsIn, OccurOnce, count_in, lists_in, without};

use crate::links::Links;
use qc_base::NoMemory;
use std::alloc::Global;
use std::marker::Model;

/// Lists of links. Contracts see the lists, and how many links there are, also such as are in no list.
#[derive(Drop)]
pub struct Chains {
    heads: Links,
    followers: Links,
}

impl Model for Chains {
    ghost Value = { Chained };

    ghost view = { λ c. record { lists = lists_in c.heads c.followers; links = length c.followers } };

    ghost invariant = { λ c. AreChains c.heads c.followers (lists_in c.heads c.followers)
        × (count_in (lists_in c.heads c.followers) ≤ length c.followers) × (length c.followers < 2 ^ 60) };
}

impl Chains {
    /// No lists and no links.
    pub(crate) fn new(alloc: Global) -> Chains
        ensures { result ≡ record { lists = []; links = 0 } }
    {
        Chains {
            heads: Links::new(alloc),
            followers: Links::new(alloc),
        }
    }

    /// No link is in two places, and each is one of the links. This holds of all chains: a caller has it by the
    /// call.
    pub(crate) fn occur_once(&self)
        ensures { OccurOnce self.now }
    {
        let _heads = &self.heads;
    }

    /// How many links there are.
    pub(crate) fn links(&self) -> u64
        ensures links { result ≡ self.now.links }
        ensures within { result < 2 ^ 60 }
    {
        self.followers.len()
    }

    /// Adds so many empty lists.
    pub(crate) fn add_lists(&mut self, count: u64) -> Result<(), NoMemory>
        requires { count < 2 ^ 60 }
        ensures ok { OnOk result
            (self.new ≡ record { lists = self.old.lists ++ replicate count []; links = self.old.links }) }
        ensures err { OnErr result (self.new ≡ self.old) }
    {
        self.heads.push_ends(count)?;
        Ok(())
    }

    /// Adds so many links, which are in no list.
    pub(crate) fn add_links(&mut self, count: u64) -> Result<(), NoMemory>
        requires { count < 2 ^ 60 }
        ensures ok { OnOk result
            (self.new ≡ record { lists = self.old.lists; links = self.old.links + count }) }
        ensures within { OnOk result (self.new.links < 2 ^ 60) }
        ensures below { (link at : ℕ) → IsIn link (slice_index_or self.old.lists at []) →
            link < self.old.links }
        ensures err { OnErr result (self.new ≡ self.old) }
    {
        self.followers.push_ends(count)?;
        Ok(())
    }

    /// The first link of a list.
    pub(crate) fn first(&self, at: u64) -> Option<u64>
        requires { at < length self.now.lists }
        ensures first { result ≡ slice_get (slice_index_or self.now.lists at []) 0 }
        ensures below { IfSome result (λ link. link < self.now.links) }
    {
        self.heads.get(at)
    }

    /// The link that follows in the list in which the link is.
    pub(crate) fn next(&self, link: u64) -> Option<u64>
        requires { link < self.now.links }
        ensures next { (at : ℕ) (front back : List ℕ) →
            slice_index_or self.now.lists at [] ≡ front ++ link ∷ back → result ≡ slice_get back 0 }
        ensures below { (at : ℕ) (front back : List ℕ) →
            slice_index_or self.now.lists at [] ≡ front ++ link ∷ back
            → IfSome result (λ follower. follower < self.now.links) }
    {
        self.followers.get(link)
    }

    /// Takes the link out of a list, where it comes after that one, or first.
    pub(crate) fn take_out(&mut self, at: u64, before: Option<u64>, link: u64)
        requires at { at < length self.old.lists }
        requires follows { Follows before link (slice_index_or self.old.lists at []) }
        ensures taken { self.new ≡ record {
          lists = slice_set self.old.lists at (without link (slice_index_or self.old.lists at []));
          links = self.old.links;
        } }
        ensures rest { (front back : List ℕ) → slice_index_or self.old.lists at [] ≡ front ++ link ∷ back →
            without link (slice_index_or self.old.lists at []) ≡ front ++ back }
        ensures link { link < self.old.links }
        ensures free { (other : ℕ) → IsIn link (slice_index_or self.new.lists other []) → ⊥ }
        ensures one { count_in self.new.lists + 1 ≡ count_in self.old.lists }
    {
        let after = self.followers.get(link);
        match before {
            Some(before) => self.followers.set(before, after),
            None => self.heads.set(at, after),
        }
    }

    /// Puts a link that is in no list first in a list.
    pub(crate) fn put_first(&mut self, at: u64, link: u64)
        requires at { at < length self.old.lists }
        requires link { link < self.old.links }
        requires free { (other : ℕ) → IsIn link (slice_index_or self.old.lists other []) → ⊥ }
        requires room { count_in self.old.lists < self.old.links }
        ensures { self.new ≡ record {
          lists = slice_set self.old.lists at (link ∷ slice_index_or self.old.lists at []);
          links = self.old.links;
        } }
    {
        let first = self.heads.get(at);
        self.followers.set(link, first);
        self.heads.set(at, Some(link));
    }
}
