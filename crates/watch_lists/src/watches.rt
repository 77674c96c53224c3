//! One list of links per literal.

ghost use Rattle.std.specs.Prelude.{◌≡◌, ◌≢◌, ℕ, ◌+◌, ◌*◌, ◌^◌, ◌<◌, ◌≤◌, ◌++◌, [], ◌∷◌, List, Option, length, slice_get, IfOk, OnOk, OnErr};
ghost use Rattle.std.specs.Option.{IfSome};
ghost use Rattle.sat_base.specs.Literal.{Literal};
ghost use Rattle.watch_lists.specs.Chains.{Follows};
ghost use Rattle.watch_lists.specs.Watched.{Watched, IsAdded, IsComplete, IsNext, IsListed, EachLinkOnce, index_of, list_of, no_watches, with_vars, with_clause, put_first, take_out, watched_of};

use crate::chains::Chains;
use qc_base::NoMemory;
use sat_base::Lit;
use std::alloc::Global;
use std::marker::Model;

/// For each literal the list of the links that watch it. Clause c, counted from 0, has the links 2c and 2c + 1.
/// Contracts see one list of links for each literal.
#[derive(Drop)]
pub struct Watches {
    chains: Chains,
}

impl Model for Watches {
    ghost Value = { Watched };

    ghost view = { λ w. watched_of w.chains };

    ghost invariant = { λ w. IsComplete w.chains };
}

impl Watches {
    /// No variables and no clauses. It takes no memory.
    pub fn new(alloc: Global) -> Watches
        ensures { result ≡ no_watches }
    {
        Watches {
            chains: Chains::new(alloc),
        }
    }

    /// Gives the literals of so many further variables empty lists. After an `Err` nothing changed.
    pub fn add_vars(&mut self, n: u32) -> Result<(), NoMemory>
        requires { self.old.vars + n < 2 ^ 31 }
        ensures ok { OnOk result (self.new ≡ with_vars n self.old) }
        ensures empty { OnOk result ((literal : Literal) → self.old.vars < literal.var →
            list_of self.new literal ≡ []) }
        ensures others { OnOk result ((literal : Literal) → IsAdded self.old literal →
            list_of self.new literal ≡ list_of self.old literal) }
        ensures err { OnErr result (self.new ≡ self.old) }
    {
        self.chains.add_lists(2 * u64::from(n))?;
        Ok(())
    }

    /// Adds a clause that watches two literals, and answers its number. After an `Err` nothing changed.
    pub fn add_clause(&mut self, a: Lit, b: Lit) -> Result<u64, NoMemory>
        requires a { IsAdded self.old a }
        requires b { IsAdded self.old b }
        requires differ { a ≢ b }
        ensures number { IfOk result (λ clause. clause ≡ self.old.clauses) }
        ensures ok { OnOk result (self.new ≡ with_clause a b self.old) }
        ensures first { OnOk result (list_of self.new a ≡ 2 * self.old.clauses ∷ list_of self.old a) }
        ensures second { OnOk result (list_of self.new b ≡ (2 * self.old.clauses + 1) ∷ list_of self.old b) }
        ensures others { OnOk result ((other : Literal) → IsAdded self.old other → other ≢ a → other ≢ b →
            list_of self.new other ≡ list_of self.old other) }
        ensures err { OnErr result (self.new ≡ self.old) }
    {
        let link = self.chains.links();
        self.chains.add_links(2)?;
        self.chains.put_first(index(a), link);
        self.chains.put_first(index(b), link + 1);
        Ok(link / 2)
    }

    /// The first link of a literal's list. It takes no memory.
    pub fn head(&self, lit: Lit) -> Option<u64>
        requires { IsAdded self.now lit }
        ensures first { result ≡ slice_get (list_of self.now lit) 0 }
        ensures below { IfSome result (λ link. link < 2 * self.now.clauses) }
    {
        self.chains.first(index(lit))
    }

    /// The link that comes after a link in its list. It takes no memory.
    pub fn next(&self, link: u64) -> Option<u64>
        requires { link < 2 * self.now.clauses }
        ensures listed { IsListed self.now link }
        ensures next { IsNext self.now link result }
        ensures below { IfSome result (λ follower. follower < 2 * self.now.clauses) }
    {
        self.chains.next(link)
    }

    /// Takes a link out of a literal's list, where it comes after that one or first, and puts it first in the
    /// list of another literal, or of the same. It takes no memory.
    pub fn relink(&mut self, lit: Lit, before: Option<u64>, link: u64, to: Lit)
        requires lit { IsAdded self.old lit }
        requires to { IsAdded self.old to }
        requires follows { Follows before link (list_of self.old lit) }
        ensures moved { self.new ≡ put_first to link (take_out lit link self.old) }
        ensures from { lit ≢ to → (front back : List ℕ) → list_of self.old lit ≡ front ++ link ∷ back →
            list_of self.new lit ≡ front ++ back }
        ensures to { lit ≢ to → list_of self.new to ≡ link ∷ list_of self.old to }
        ensures within { lit ≡ to → (front back : List ℕ) → list_of self.old lit ≡ front ++ link ∷ back →
            list_of self.new lit ≡ link ∷ (front ++ back) }
        ensures others { (other : Literal) → IsAdded self.old other → other ≢ lit → other ≢ to →
            list_of self.new other ≡ list_of self.old other }
    {
        self.chains.take_out(index(lit), before, link);
        self.chains.put_first(index(to), link);
    }

    /// Each link of a clause is in one list, at one place, and no other link is in any. This holds of all
    /// watches: a caller has it by the call.
    pub fn each_link_once(&self)
        ensures lists { length self.now.lists ≡ 2 * self.now.vars }
        ensures links { EachLinkOnce self.now }
    {
        self.chains.occur_once();
    }
}

/// Where the literal's list is among the lists.
fn index(lit: Lit) -> u64
    requires { 1 ≤ lit.var }
    ensures { result ≡ index_of lit }
{
    let sign = if lit.positive() { 0 } else { 1 };
    2 * (u64::from(lit.var()) - 1) + sign
}
