//! What is kept for propagation: which literals the clauses watch.

use crate::linked::Linked;
use derivation_log::LineId;
use qc_base::NoMemory;
use sat_base::Lit;
use std::alloc::Global;

/// Two literals of a clause that it watches.
#[derive(Clone, Copy, Debug)]
pub(crate) struct Pair {
    pub(crate) first: Lit,
    pub(crate) second: Lit,
}

/// The lines of at most one literal, and for each clause of two links its line. It is None where a line did not
/// come about, since memory ran out.
#[derive(Drop)]
pub(crate) struct Watching {
    pub(crate) short: Vec<Option<LineId>>,
    pub(crate) lines: Vec<Option<LineId>>,
    pub(crate) linked: Linked,
    // How many literals of the trail were propagated.
    pub(crate) done: usize,
    // How many links were looked at.
    pub(crate) visited: u64,
}

impl Watching {
    ghost use Rattle.std.specs.Prelude.{◌≡◌, ◌<◌, ◌≤◌, ◌^◌, None, Some, length, min, OnOk, OnErr};
    ghost use Rattle.cdcl.specs.Watching.{Kept, kept_of, nothing_kept, with_done, with_slot, CanWatch};

    /// Nothing is kept.
    pub(crate) fn new(alloc: Global) -> Watching
        ensures { kept_of result ≡ nothing_kept }
    {
        Watching {
            short: Vec::new(alloc),
            lines: Vec::new(alloc),
            linked: Linked::new(alloc),
            done: 0,
            visited: 0,
        }
    }

    /// Gives the literals of the variables up to that one lists.
    pub(crate) fn grow(&mut self, vars: u32) -> Result<(), NoMemory>
        requires { vars < 2 ^ 31 }
        ensures grown { OnOk result (vars ≤ self.new.linked.watched.vars) }
        ensures more { self.old.linked.watched.vars ≤ self.new.linked.watched.vars }
        ensures rest { kept_of self.new ≡ record (kept_of self.old) { vars = self.new.linked.watched.vars } }
    {
        let had = self.linked.vars();
        if had < vars {
            self.linked.add_vars(vars - had)?;
        }
        Ok(())
    }

    /// The trail was cut to so many literals.
    pub(crate) fn cut(&mut self, kept: usize)
        ensures { kept_of self.new ≡ with_done (kept_of self.old) (min self.old.done kept) }
    {
        self.done = self.done.min(kept);
    }

    /// All literals of the trail are to be propagated again.
    pub(crate) fn restart(&mut self)
        ensures { kept_of self.new ≡ with_done (kept_of self.old) 0 }
    {
        self.done = 0;
    }

    /// Makes a place for a line that is about to come about. After an `Err` nothing changed.
    pub(crate) fn prepare(&mut self, watched: &Option<Pair>) -> Result<(), NoMemory>
        requires { CanWatch self.old.linked.watched.vars watched.now }
        ensures ok { OnOk result (kept_of self.new ≡ with_slot (kept_of self.old) watched.now None) }
        ensures err { OnErr result (kept_of self.new ≡ kept_of self.old) }
    {
        match watched {
            None => self.short.push(None)?,
            Some(pair) => {
                self.lines.reserve(1)?;
                self.linked.add(pair.first, pair.second)?;
                self.lines.push_reserved(None);
            }
        }
        Ok(())
    }

    /// Puts the line into the place that was made for it.
    pub(crate) fn commit(&mut self, watched: &Option<Pair>, line: LineId)
        requires { (front : Kept) × (kept_of self.old ≡ with_slot front watched.now None) }
        ensures { (front : Kept) → kept_of self.old ≡ with_slot front watched.now None →
            kept_of self.new ≡ with_slot front watched.now (Some line) }
    {
        match watched {
            None => {
                let last = self.short.len() - 1;
                self.short[last] = Some(line);
            }
            Some(_) => {
                let last = self.lines.len() - 1;
                self.lines[last] = Some(line);
            }
        }
    }
}
