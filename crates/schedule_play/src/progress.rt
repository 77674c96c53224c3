//! Which operations were performed.

ghost use Rattle.std.specs.Prelude.{◌≡◌, ℕ, ◌<◌, length, false, IsTrue, ◌↔◌, slice_index_or, IfOk, MatchOption, [], ◌∷◌};
ghost use Rattle.schedule_play.specs.Progress.{AreFlags, marked, IsOwed, IsOwedFirst, IsUndone, IsMissing};
ghost use Rattle.schedule_play.specs.Ready.{AreClosed, IsReadyTable, IsReadyThroughout};

use crate::ready::{is_performed, ready_steps};
use circuit_core::{Circuit, forced};
use qc_base::{NoMemory, OpId};
use std::alloc::Global;
use step_rules::{Action, Step};

/// What was performed in earlier steps, and what with the step that is played.
#[derive(Debug, Drop)]
pub(crate) struct Progress {
    pub ready: Vec<u64>,
    pub earlier: Vec<bool>,
    pub done: Vec<bool>,
}

// Flags the operation that the action performs.
fn mark(flags: &mut Vec<bool>, action: &Action)
    ensures { flags.new.items ≡ marked flags.old.items action.now }
{
    if let Action::Op { op, .. } = action {
        let number = op.0 as usize;
        if number < flags.len() {
            flags[number] = true;
        }
    }
}

// Whether the one has no flag and has to come before the other.
fn is_owed(circuit: &Circuit, flags: &[bool], needs: OpId, op: OpId) -> bool
    requires { length flags.now ≡ length circuit.now.ops }
    ensures { IsTrue result ↔ IsOwed circuit.now flags.now op.0 needs.0 }
{
    if !is_performed(circuit, needs) {
        return false;
    }
    !flags[needs.0 as usize] && forced(circuit, needs, op)
}

// The least operation without a flag that has to come before that one.
fn least_owed(circuit: &Circuit, flags: &[bool], op: OpId) -> Option<OpId>
    requires { length flags.now ≡ length circuit.now.ops }
    ensures { MatchOption result
        ((needs : ℕ) → IsOwed circuit.now flags.now op.0 needs → ⊥)
        (λ needs. IsOwedFirst circuit.now flags.now op.0 needs.0) }
{
    for number in 0..circuit.ops().len() as u32 {
        let needs = OpId(number);
        if is_owed(circuit, flags, needs, op) {
            return Some(needs);
        }
    }
    None
}

impl Progress {
    /// Nothing is performed; these steps will be played.
    pub fn start(alloc: Global, circuit: &Circuit, steps: &[Step]) -> Result<Progress, NoMemory>
        ensures ready { IfOk result (λ progress. IsReadyThroughout circuit.now steps.now progress.ready.items) }
        ensures earlier { IfOk result (λ progress. AreFlags circuit.now [] progress.earlier.items) }
        ensures done { IfOk result (λ progress. AreFlags circuit.now ([] ∷ []) progress.done.items) }
    {
        let count = circuit.ops().len();
        Ok(Progress {
            ready: ready_steps(alloc, circuit, steps)?,
            earlier: vec![in alloc; false; count]?,
            done: vec![in alloc; false; count]?,
        })
    }

    /// The least operation that has to come before that one and was not performed in the earlier steps.
    pub fn owed(&self, circuit: &Circuit, past: &[Step], op: OpId) -> Option<OpId>
        requires ready { IsReadyTable circuit.now past.now self.now.ready.items }
        requires earlier { AreFlags circuit.now past.now self.now.earlier.items }
        requires closed { AreClosed circuit.now past.now }
        requires there { op.0 < length circuit.now.ops }
        ensures { MatchOption result
            ((needs : ℕ) → IsOwed circuit.now self.now.earlier.items op.0 needs → ⊥)
            (λ needs. IsOwedFirst circuit.now self.now.earlier.items op.0 needs.0) }
    {
        if self.ready[op.0 as usize] <= past.len() as u64 {
            return None;
        }
        least_owed(circuit, &self.earlier, op)
    }

    /// Whether the operation was performed.
    pub fn is_done(&self, op: OpId) -> bool
        requires { op.0 < length self.now.done.items }
        ensures { result ≡ slice_index_or self.now.done.items op.0 false }
    {
        self.done[op.0 as usize]
    }

    /// An action of the step that is played.
    pub fn note(&mut self, action: &Action)
        ensures done { self.new.done.items ≡ marked self.old.done.items action.now }
        ensures earlier { self.new.earlier ≡ self.old.earlier }
        ensures ready { self.new.ready ≡ self.old.ready }
    {
        mark(&mut self.done, action);
    }

    /// An action of a step that was played.
    pub fn settle(&mut self, action: &Action)
        ensures earlier { self.new.earlier.items ≡ marked self.old.earlier.items action.now }
        ensures done { self.new.done ≡ self.old.done }
        ensures ready { self.new.ready ≡ self.old.ready }
    {
        mark(&mut self.earlier, action);
    }

    // Whether the operation was not performed.
    fn lacks(&self, circuit: &Circuit, op: OpId) -> bool
        requires { length self.now.done.items ≡ length circuit.now.ops }
        ensures { IsTrue result ↔ IsUndone circuit.now self.now.done.items op.0 }
    {
        is_performed(circuit, op) && !self.done[op.0 as usize]
    }

    /// The least operation that was not performed.
    pub fn missing(&self, circuit: &Circuit) -> Option<OpId>
        requires { length self.now.done.items ≡ length circuit.now.ops }
        ensures { MatchOption result
            ((op : ℕ) → IsUndone circuit.now self.now.done.items op → ⊥)
            (λ op. IsMissing circuit.now self.now.done.items op.0) }
    {
        for number in 0..circuit.ops().len() as u32 {
            let op = OpId(number);
            if self.lacks(circuit, op) {
                return Some(op);
            }
        }
        None
    }
}
