//! Which operations are settled, and which are ready.

ghost use Rattle.std.specs.Prelude.{◌≡◌, ◌+◌, ◌<◌, ◌≤◌, ◌++◌, ◌∷◌, [], true, false, length, vec_len, vec_capacity, All, AllPairs, IfOk, OnOk};
ghost use Rattle.qc_base.specs.declared.ids.OpId.{OpId as AnOpId};
ghost use Rattle.circuit_core.specs.Nearest.{IsNearestTable};
ghost use Rattle.circuit_core.specs.Order.{is_performed};
ghost use Rattle.gate_order.specs.Ready.{IsAmong};
ghost use Rattle.gate_order.specs.Keeping.{IsPlace, IsFront, IsStateOf, HasRoom, IsKept, IsBlocked, IsVisited, AreAfter, IsSettledAll, done_in};
ghost use Rattle.gate_order.specs.Changes.{IsEmpty, Settles, Puts, Takes};

use crate::after::Numbers;
use circuit_core::{Circuit, Nearest};
use qc_base::{NoMemory, OpId};
use std::alloc::Global;

/// How many of the operations right before each operation were seen to be settled, which operations are settled, in
/// their order too, and which are ready. An operation is settled where it is done, or is a barrier before which all
/// are done.
#[derive(Debug, Drop)]
pub(crate) struct Progress {
    pub(crate) seen: Vec<usize>,
    pub(crate) flags: Vec<bool>,
    pub(crate) settled: Vec<OpId>,
    pub(crate) ready: Vec<OpId>,
}

// The index of the first of these that isn't before the operation.
fn place_of(ready: &[OpId], op: OpId) -> usize
    ensures { IsPlace ready.now op result }
{
    for (index, other) in ready.iter().enumerate() {
        if other.0 >= op.0 {
            return index;
        }
    }
    ready.len()
}

// How many of these from the first on are settled, where so many are.
fn settled_front(flags: &[bool], near: &[OpId], seen: usize) -> usize
    requires seen { seen ≤ length near.now }
    requires within { All (λ (it : AnOpId). it.0 < length flags.now) near.now }
    ensures { IsFront flags.now near.now seen result }
{
    let mut front = seen;
    for before in &near[seen..] {
        if !flags[before.0 as usize] {
            return front;
        }
        front += 1;
    }
    front
}

impl Progress {
    /// No operation is known yet.
    pub(crate) fn new(alloc: Global, count: usize) -> Result<Progress, NoMemory>
        ensures { IfOk result (λ progress. IsEmpty count progress) }
    {
        Ok(Progress {
            seen: Vec::with_capacity(alloc, count)?,
            flags: Vec::with_capacity(alloc, count)?,
            settled: Vec::with_capacity(alloc, count)?,
            ready: Vec::with_capacity(alloc, count)?,
        })
    }

    // Settles an operation.
    fn settle(&mut self, op: OpId)
        requires known { op.0 < vec_len self.old.flags }
        requires room { vec_len self.old.settled < vec_capacity self.old.settled }
        ensures { Settles op self.old self.new }
    {
        self.flags[op.0 as usize] = true;
        self.settled.push_reserved(op);
    }

    // Puts an operation among the ready ones.
    fn put(&mut self, op: OpId)
        requires room { vec_len self.old.ready < vec_capacity self.old.ready }
        ensures { Puts op self.old self.new }
    {
        let place = place_of(&self.ready, op);
        let _room = self.ready.insert(place, op);
    }

    // Takes an operation from the ready ones.
    fn take(&mut self, op: OpId)
        requires ascending { AllPairs (λ (first second : AnOpId). first.0 < second.0) self.old.ready.items }
        requires ready { IsAmong self.old.ready.items op.0 }
        ensures { Takes op self.old self.new }
    {
        let place = place_of(&self.ready, op);
        self.ready.remove(place);
    }

    // Settles a barrier, or puts another operation among the ready ones.
    fn arrive(&mut self, circuit: &Circuit, op: OpId)
        requires known { op.0 < vec_len self.old.flags }
        requires there { op.0 < length circuit.now.ops }
        requires settled { vec_len self.old.settled < vec_capacity self.old.settled }
        requires ready { vec_len self.old.ready < vec_capacity self.old.ready }
        ensures barrier { is_performed circuit.now op.0 ≡ false → Settles op self.old self.new }
        ensures performed { is_performed circuit.now op.0 ≡ true → Puts op self.old self.new }
    {
        if circuit.ops()[op.0 as usize].is_barrier() {
            self.settle(op);
        } else {
            self.put(op);
        }
    }

    /// Adds the next operation of the circuit.
    pub(crate) fn add(
        &mut self,
        circuit: &Circuit,
        nearest: &Nearest,
        op: OpId,
    ) -> Result<(), NoMemory>
        requires table { IsNearestTable circuit.now nearest.now }
        requires op { op.0 < length nearest.now }
        requires next { op.0 ≡ vec_len self.old.flags }
        requires state { IsStateOf circuit.now nearest.now self.old }
        requires room { HasRoom nearest.now self.old }
        ensures state { OnOk result (IsStateOf circuit.now nearest.now self.new) }
        ensures room { OnOk result (HasRoom nearest.now self.new) }
        ensures next { OnOk result (vec_len self.new.flags ≡ op.0 + 1) }
        ensures done { OnOk result (done_in circuit.now self.new.settled.items
            ≡ done_in circuit.now self.old.settled.items) }
    {
        self.seen.push(0)?;
        self.flags.push(false)?;
        if nearest.of(op).is_empty() {
            self.arrive(circuit, op);
        }
        Ok(())
    }

    // Looks again at what an operation waits for.
    fn visit(&mut self, circuit: &Circuit, nearest: &Nearest, op: OpId)
        requires kept { IsKept circuit.now nearest.now self.old }
        requires op { op.0 < length nearest.now }
        ensures kept { IsKept circuit.now nearest.now self.new }
        ensures visited { IsVisited circuit.now nearest.now op.0 self.old self.new }
    {
        let near = nearest.of(op);
        let seen = self.seen[op.0 as usize];
        if seen == near.len() {
            return;
        }
        let front = settled_front(&self.flags, near, seen);
        self.seen[op.0 as usize] = front;
        if front == near.len() {
            self.arrive(circuit, op);
        }
    }

    // Looks at what comes right after the settled operation of that index.
    fn visit_after(&mut self, circuit: &Circuit, nearest: &Nearest, after: &[Numbers], head: usize)
        requires kept { IsKept circuit.now nearest.now self.old }
        requires after { AreAfter nearest.now (length nearest.now) after.now }
        requires head { head < vec_len self.old.settled }
        requires blocked { IsBlocked nearest.now self.old head }
        ensures kept { IsKept circuit.now nearest.now self.new }
        ensures blocked { IsBlocked nearest.now self.new (head + 1) }
        ensures done { done_in circuit.now self.new.settled.items ≡ done_in circuit.now self.old.settled.items }
        ensures len { vec_len self.old.settled ≤ vec_len self.new.settled }
    {
        let op = self.settled[head];
        for next in after[op.0 as usize].items() {
            self.visit(circuit, nearest, OpId(*next));
        }
    }

    /// Looks at what comes after the settled operations from that index on.
    pub(crate) fn spread(
        &mut self,
        circuit: &Circuit,
        nearest: &Nearest,
        after: &[Numbers],
        from: usize,
    )
        requires kept { IsKept circuit.now nearest.now self.old }
        requires after { AreAfter nearest.now (length nearest.now) after.now }
        requires blocked { IsBlocked nearest.now self.old from }
        ensures all { IsSettledAll circuit.now nearest.now after.now self.new }
        ensures done { done_in circuit.now self.new.settled.items ≡ done_in circuit.now self.old.settled.items }
    {
        let mut head = from;
        while head < self.settled.len() {
            self.visit_after(circuit, nearest, after, head);
            head += 1;
        }
    }

    /// Settles a ready operation, and what has to follow.
    pub(crate) fn finish(
        &mut self,
        circuit: &Circuit,
        nearest: &Nearest,
        after: &[Numbers],
        op: OpId,
    )
        requires all { IsSettledAll circuit.now nearest.now after.now self.old }
        requires ready { IsAmong self.old.ready.items op.0 }
        ensures all { IsSettledAll circuit.now nearest.now after.now self.new }
        ensures done { done_in circuit.now self.new.settled.items
            ≡ done_in circuit.now self.old.settled.items ++ op ∷ [] }
    {
        let head = self.settled.len();
        self.take(op);
        self.settle(op);
        self.spread(circuit, nearest, after, head);
    }
}
