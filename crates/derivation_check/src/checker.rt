//! The checker.

ghost use Rattle.std.specs.Prelude.{◌≡◌, ◌<◌, ◌≤◌, ◌^◌, ◌++◌, ◌∷◌, ◌↔◌, ℕ, List, [], length, drop, position, ◌==◌, IsTrue, IfErr, OnOk, Some, None, Err};
ghost use Rattle.qc_base.specs.Spelling.{IsFree};
ghost use Rattle.sat_base.specs.Literal.{positive_of};
ghost use Rattle.sat_base.specs.Derivation.{AnyRefutes};
ghost use Rattle.derivation_check.specs.declared.cert_fault.CertFault.{CertFault as ACertFault};
ghost use Rattle.derivation_check.specs.Faults.{Task, HasFault, Answers};
ghost use Rattle.derivation_check.specs.Progress.{Accepts, WasFed, HasLineFault, KeepsRest, task_of};

use crate::cert_fault::CertFault;
use certificate_lines::{is_good, read_line, refutes};
use sat_base::{Formula, Lit, Resolution};
use std::alloc::Global;
use std::marker::Model;

/// A checker of the lines after the head of a certificate, which is fed their bytes in pieces. Contracts see
/// how far it is.
#[derive(Debug, Drop)]
pub struct Checker {
    // The formula, and after it the derived clauses.
    clauses: Formula,
    axioms: u64,
    vars: u32,
    limit: u64,
    fed: u64,
    // Which line of the whole text comes next, and its bytes so far.
    place: u64,
    pending: Vec<u8>,
    // The literals and hints of the line that is judged.
    lits: Vec<Lit>,
    hints: Vec<u64>,
    resolution: Resolution,
    stopped: Option<CertFault>,
}

impl Model for Checker {
    ghost use Rattle.std.specs.Prelude.{◌<◌, ◌≤◌, ◌^◌, length};
    ghost use Rattle.derivation_check.specs.Progress.{Progress};

    ghost Value = { Progress };

    ghost view = { λ c. record {
      clauses = c.clauses;
      axioms = c.axioms;
      vars = c.vars;
      limit = c.limit;
      fed = c.fed;
      place = c.place;
      pending = c.pending.items;
      stopped = c.stopped;
    } };

    ghost invariant = { λ c. (c.vars < 2 ^ 31) × (c.fed ≤ c.limit) × (c.axioms ≤ length c.clauses) };
}

impl Checker {
    /// A checker of lines over this formula, with variables up to vars, that takes at most limit bytes. It
    /// takes no memory.
    pub fn new(alloc: Global, formula: Formula, vars: u32, limit: u64) -> Checker
        requires { vars < 2 ^ 31 }
        ensures fed { WasFed (task_of formula vars limit) [] result }
        ensures no_fault { result.stopped ≡ None }
    {
        Checker {
            axioms: formula.len(),
            clauses: formula,
            vars,
            limit,
            fed: 0,
            place: 4,
            pending: Vec::new(alloc),
            lits: Vec::new(alloc),
            hints: Vec::new(alloc),
            resolution: Resolution::new(alloc),
            stopped: None,
        }
    }

    /// Takes the next bytes, and judges each line when its line feed comes. Whether there is a fault depends
    /// on all bytes so far and not on how they were cut, out of memory aside. After a fault each call answers
    /// it again.
    pub fn feed(&mut self, piece: &[u8]) -> Result<(), CertFault>
        ensures fed { (task : Task) (bytes : List ℕ) →
            WasFed task bytes self.old → WasFed task (bytes ++ piece.now) self.new }
        ensures ok { OnOk result (self.new.stopped ≡ None) }
        ensures err { IfErr result (λ fault. self.new.stopped ≡ Some fault) }
        ensures again { (fault : ACertFault) → self.old.stopped ≡ Some fault →
            (result ≡ Err fault) × (self.new ≡ self.old) }
    {
        if let Some(fault) = self.stopped {
            return Err(fault);
        }
        match self.take(piece) {
            Ok(()) => Ok(()),
            Err(fault) => {
                self.stopped = Some(fault);
                Err(fault)
            }
        }
    }

    /// How many lines there are, where all are good and one refutes the goal, a variable; else the first
    /// fault. After a fault each call answers it again.
    pub fn finish(&mut self, goal: u32) -> Result<u64, CertFault>
        requires from_1 { 1 ≤ goal }
        requires below { goal < 2 ^ 31 }
        ensures answers { (task : Task) (bytes : List ℕ) →
            WasFed task bytes self.old → Answers task bytes (positive_of goal) result }
        ensures ok { OnOk result (self.new ≡ self.old) }
        ensures err { IfErr result (λ fault. self.new.stopped ≡ Some fault) }
        ensures again { (fault : ACertFault) → self.old.stopped ≡ Some fault →
            (result ≡ Err fault) × (self.new ≡ self.old) }
    {
        if let Some(fault) = self.stopped {
            return Err(fault);
        }
        match self.count(goal) {
            Ok(count) => Ok(count),
            Err(fault) => {
                self.stopped = Some(fault);
                Err(fault)
            }
        }
    }

    // Takes further bytes, where no fault was answered.
    fn take(&mut self, piece: &[u8]) -> Result<(), CertFault>
        requires { self.old.stopped ≡ None }
        ensures ok { OnOk result ((task : Task) (bytes : List ℕ) →
            WasFed task bytes self.old → WasFed task (bytes ++ piece.now) self.new) }
        ensures err { IfErr result (λ fault. (task : Task) (bytes : List ℕ) →
            WasFed task bytes self.old → HasFault task (bytes ++ piece.now) fault) }
        ensures no_fault { self.new.stopped ≡ None }
    {
        let room = self.limit - self.fed;
        let len = piece.len() as u64;
        if len > room {
            self.take_lines(&piece[..room as usize])?;
            return Err(CertFault::Endless);
        }
        self.take_lines(piece)?;
        self.fed += len;
        Ok(())
    }

    // Takes the lines that end in these bytes, and keeps the bytes after them.
    fn take_lines(&mut self, bytes: &[u8]) -> Result<(), CertFault>
        ensures ok { OnOk result ((task : Task) (before : List ℕ) →
            Accepts task before self.old → Accepts task (before ++ bytes.now) self.new) }
        ensures err { IfErr result (λ fault. (task : Task) (before : List ℕ) →
            Accepts task before self.old → HasLineFault task (before ++ bytes.now) fault) }
        ensures same { KeepsRest self.old self.new }
    {
        let mut rest = bytes;
        while let Some(end) = line_end(rest) {
            let (line, after) = rest.split_at(end + 1);
            self.take_line(line)?;
            rest = after;
        }
        self.pending.extend_from_slice(rest)?;
        Ok(())
    }

    // Takes the bytes that end a line, up to its line feed.
    fn take_line(&mut self, bytes: &[u8]) -> Result<(), CertFault>
        ensures ok { OnOk result ((task : Task) (before word : List ℕ) →
            bytes.now ≡ word ++ 10 ∷ [] → IsFree 10 word → Accepts task before self.old
            → Accepts task (before ++ bytes.now) self.new) }
        ensures err { IfErr result (λ fault. (task : Task) (before word : List ℕ) →
            bytes.now ≡ word ++ 10 ∷ [] → IsFree 10 word → Accepts task before self.old
            → HasLineFault task (before ++ bytes.now) fault) }
        ensures same { KeepsRest self.old self.new }
    {
        self.pending.extend_from_slice(bytes)?;
        // A number past 64 bits would need more memory than a machine has.
        let Some(number) = self.clauses.len().checked_add(1) else {
            return Err(CertFault::NoMemory);
        };
        if !read_line(
            &self.pending,
            number,
            self.vars,
            &mut self.lits,
            &mut self.hints,
        )? {
            return Err(CertFault::Line { n: self.place });
        }
        if !is_good(
            &mut self.resolution,
            &self.clauses,
            self.vars,
            &self.lits,
            &self.hints,
        )? {
            return Err(CertFault::Bad { n: self.place });
        }
        let Some(place) = self.place.checked_add(1) else {
            return Err(CertFault::NoMemory);
        };
        self.clauses.push(&self.lits)?;
        self.place = place;
        self.pending.clear();
        Ok(())
    }

    // How many lines there are, where no bytes are left and one of them refutes the goal.
    fn count(&mut self, goal: u32) -> Result<u64, CertFault>
        requires from_1 { 1 ≤ goal }
        requires below { goal < 2 ^ 31 }
        requires no_fault { self.old.stopped ≡ None }
        ensures answers { (task : Task) (bytes : List ℕ) →
            WasFed task bytes self.old → Answers task bytes (positive_of goal) result }
        ensures same { self.new ≡ self.old }
    {
        if !self.pending.is_empty() {
            return Err(CertFault::Line { n: self.place });
        }
        if any_refutes(&self.clauses, self.axioms, Lit::new(goal, true)) {
            Ok(self.clauses.len() - self.axioms)
        } else {
            Err(CertFault::NotRefuting)
        }
    }
}

// Where the first line feed is.
fn line_end(bytes: &[u8]) -> Option<usize>
    ensures { result ≡ position (λ byte. byte == 10) bytes.now }
{
    bytes.iter().position(|byte| *byte == b'\n')
}

// Whether some clause after the first so many refutes the goal.
fn any_refutes(clauses: &Formula, axioms: u64, goal: Lit) -> bool
    requires { axioms ≤ length clauses.now }
    ensures { IsTrue result ↔ AnyRefutes goal (drop axioms clauses.now) }
{
    for k in axioms..clauses.len() {
        if refutes(clauses.clause(k + 1), goal) {
            return true;
        }
    }
    false
}
