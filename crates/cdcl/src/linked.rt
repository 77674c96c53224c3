//! Links, the literals that they watch, and their lists.

ghost use Rattle.std.specs.Prelude.{◌≡◌, ◌≢◌, ℕ, ◌+◌, ◌*◌, ◌^◌, ◌<◌, ◌≤◌, ◌++◌, [], ◌∷◌, List, Some, length, slice_get, slice_set, OnOk, OnErr};
ghost use Rattle.sat_base.specs.Literal.{Literal};
ghost use Rattle.watch_lists.specs.Chains.{Follows};
ghost use Rattle.watch_lists.specs.Watched.{IsAdded, IsNext, EachLinkOnce, list_of, no_watches};
ghost use Rattle.cdcl.specs.Linked.{Linked, IsTied, other_link};

use qc_base::NoMemory;
use sat_base::Lit;
use std::alloc::Global;
use std::marker::Model;
use watch_lists::Watches;

/// For each literal the list of the links that watch it, and for each link its literal. Clause c, counted from 0,
/// has the links 2c and 2c + 1.
#[derive(Drop)]
pub(crate) struct Linked {
    watches: Watches,
    literals: Vec<Lit>,
    vars: u32,
}

impl Model for Linked {
    ghost use Rattle.std.specs.Prelude.{◌≡◌, ◌<◌, ◌^◌};
    ghost use Rattle.cdcl.specs.Linked.{Linked, IsTied};

    ghost Value = { Linked };

    ghost view = { λ l. record { watched = l.watches; literals = l.literals.items } };

    ghost invariant = { λ l. IsTied l.watches l.literals.items × (l.vars ≡ l.watches.vars) × (l.vars < 2 ^ 31) };
}

/// The other link of the same clause.
pub(crate) fn other_link(link: u64) -> u64
    ensures { result ≡ other_link link }
{
    if link % 2 == 0 { link + 1 } else { link - 1 }
}

impl Linked {
    /// No variables and no links.
    pub(crate) fn new(alloc: Global) -> Linked
        ensures { result ≡ record { watched = no_watches; literals = [] } }
    {
        Linked {
            watches: Watches::new(alloc),
            literals: Vec::new(alloc),
            vars: 0,
        }
    }

    /// How many variables there are.
    pub(crate) fn vars(&self) -> u32
        ensures vars { result ≡ self.now.watched.vars }
        ensures below { result < 2 ^ 31 }
    {
        self.vars
    }

    /// Gives the literals of so many further variables empty lists.
    pub(crate) fn add_vars(&mut self, n: u32) -> Result<(), NoMemory>
        requires { self.old.watched.vars + n < 2 ^ 31 }
        ensures vars { OnOk result (self.new.watched.vars ≡ self.old.watched.vars + n) }
        ensures literals { self.new.literals ≡ self.old.literals }
        ensures err { OnErr result (self.new ≡ self.old) }
    {
        self.watches.add_vars(n)?;
        self.vars += n;
        Ok(())
    }

    /// Adds two links, of two literals.
    pub(crate) fn add(&mut self, a: Lit, b: Lit) -> Result<(), NoMemory>
        requires a { IsAdded self.old.watched a }
        requires b { IsAdded self.old.watched b }
        requires differ { a ≢ b }
        ensures vars { self.new.watched.vars ≡ self.old.watched.vars }
        ensures literals { OnOk result (self.new.literals ≡ self.old.literals ++ a ∷ b ∷ []) }
        ensures err { OnErr result (self.new ≡ self.old) }
    {
        self.literals.reserve(2)?;
        self.watches.add_clause(a, b)?;
        self.literals.push_reserved(a);
        self.literals.push_reserved(b);
        Ok(())
    }

    /// The literal that watches by a link.
    pub(crate) fn literal(&self, link: u64) -> Lit
        requires { link < length self.now.literals }
        ensures { slice_get self.now.literals link ≡ Some result }
    {
        self.literals[link as usize]
    }

    /// Each link is in one list, that of its literal.
    pub(crate) fn tied(&self)
        ensures tied { IsTied self.now.watched self.now.literals }
        ensures once { EachLinkOnce self.now.watched }
    {
        self.watches.each_link_once();
    }

    /// The first link of a literal's list.
    pub(crate) fn first(&self, literal: Lit) -> Option<u64>
        requires { IsAdded self.now.watched literal }
        ensures { result ≡ slice_get (list_of self.now.watched literal) 0 }
    {
        self.watches.head(literal)
    }

    /// The link that comes after a link in its list.
    pub(crate) fn next(&self, link: u64) -> Option<u64>
        requires { link < length self.now.literals }
        ensures { IsNext self.now.watched link result }
    {
        self.watches.next(link)
    }

    /// Takes a link out of a literal's list, where it comes after that one or first, and puts it first in the list
    /// of another literal.
    pub(crate) fn relink(&mut self, literal: Lit, before: Option<u64>, link: u64, to: Lit)
        requires literal { IsAdded self.old.watched literal }
        requires to { IsAdded self.old.watched to }
        requires differ { literal ≢ to }
        requires follows { Follows before link (list_of self.old.watched literal) }
        ensures vars { self.new.watched.vars ≡ self.old.watched.vars }
        ensures literals { self.new.literals ≡ slice_set self.old.literals link to }
        ensures list { (front back : List ℕ) → list_of self.old.watched literal ≡ front ++ link ∷ back →
            list_of self.new.watched literal ≡ front ++ back }
    {
        self.watches.each_link_once();
        self.watches.relink(literal, before, link, to);
        self.literals[link as usize] = to;
    }
}
