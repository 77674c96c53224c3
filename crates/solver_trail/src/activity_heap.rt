//! Variables in a binary heap by their activities.

ghost use Rattle.std.specs.Prelude.{◌≡◌, ℕ, ◌+◌, ◌<◌, ◌≤◌, [], ◌∷◌, ◌++◌, length, slice_index, vec_capacity, IsPermutation, IfSome, IfNone, OnOk, OnErr};
ghost use Rattle.solver_trail.specs.Queue.{Queue};

use qc_base::NoMemory;
use std::alloc::Global;
use std::marker::Model;

// What a bump adds at first.
const FIRST_STEP: u64 = 1 << 20;

// The activity from which all are made smaller, and by how many bits.
const LIMIT: u64 = 1 << 62;

const BITS: u32 = 40;

// A step is this many times what the next one adds to it.
const DECAY: u64 = 19;

/// Variables in a binary heap, of which a more active one is nearer to the top, and those that were taken out.
/// Contracts see both lists.
#[derive(Debug, Drop)]
pub(crate) struct ActivityHeap {
    members: Vec<u32>,
    taken: Vec<u32>,
    // For each variable, where it is a member its index among them.
    places: Vec<usize>,
    activities: Vec<u64>,
    // What a bump adds.
    step: u64,
}

impl Model for ActivityHeap {
    ghost use Rattle.std.specs.Prelude.{◌+◌, ◌≤◌, length, vec_capacity};
    ghost use Rattle.solver_trail.specs.Queue.{Queue};

    ghost Value = { Queue };

    ghost view = { λ h. record { members = h.members.items; taken = h.taken.items } };

    // Each list has room for all.
    ghost invariant = { λ h. (length h.members.items + length h.taken.items ≤ vec_capacity h.members)
        × (length h.members.items + length h.taken.items ≤ vec_capacity h.taken) };
}

// The activity of a variable.
fn activity_of(activities: &[u64], var: u32) -> u64 {
    activities.get(var as usize).copied().unwrap_or(0)
}

// Notes where the variable is.
fn note(places: &mut [usize], var: u32, place: usize) {
    if let Some(noted) = places.get_mut(var as usize) {
        *noted = place;
    }
}

// Exchanges two variables of the heap.
fn exchange(heap: &mut [u32], places: &mut [usize], first: usize, second: usize)
    requires first { first < length heap.old }
    requires second { second < length heap.old }
    ensures permuted { IsPermutation heap.old heap.new }
    ensures len { length heap.new ≡ length heap.old }
{
    heap.swap(first, second);
    note(places, heap[first], first);
    note(places, heap[second], second);
}

// Moves a variable up until its parent is as active.
fn sift_up(heap: &mut [u32], places: &mut [usize], activities: &[u64], from: usize)
    requires { from < length heap.old }
    ensures permuted { IsPermutation heap.old heap.new }
    ensures len { length heap.new ≡ length heap.old }
{
    let mut at = from;
    while at > 0 {
        let parent = (at - 1) / 2;
        if activity_of(activities, heap[parent]) >= activity_of(activities, heap[at]) {
            break;
        }
        exchange(heap, places, parent, at);
        at = parent;
    }
}

// The child that is more active than its parent and not less than the other child.
fn more_active_child(heap: &[u32], activities: &[u64], parent: usize) -> Option<usize>
    requires { parent < length heap.now }
    ensures { IfSome result (λ child. (parent < child) × (child < length heap.now)) }
{
    if parent >= heap.len() / 2 {
        return None;
    }
    let mut child = 2 * parent + 1;
    if child + 1 < heap.len()
        && activity_of(activities, heap[child]) < activity_of(activities, heap[child + 1])
    {
        child += 1;
    }
    if activity_of(activities, heap[parent]) < activity_of(activities, heap[child]) {
        Some(child)
    } else {
        None
    }
}

// Moves a variable down until no child is more active.
fn sift_down(heap: &mut [u32], places: &mut [usize], activities: &[u64], from: usize)
    requires { from < length heap.old }
    ensures permuted { IsPermutation heap.old heap.new }
    ensures len { length heap.new ≡ length heap.old }
{
    let mut at = from;
    while let Some(child) = more_active_child(heap, activities, at) {
        exchange(heap, places, at, child);
        at = child;
    }
}

// Puts a variable into the heap.
fn put(members: &mut Vec<u32>, places: &mut [usize], activities: &[u64], var: u32)
    requires { length members.old.items < vec_capacity members.old }
    ensures permuted { IsPermutation (var ∷ members.old.items) members.new.items }
    ensures more { length members.new.items ≡ length members.old.items + 1 }
    ensures capacity { vec_capacity members.new ≡ vec_capacity members.old }
{
    members.push_reserved(var);
    let last = members.len() - 1;
    note(places, var, last);
    sift_up(members, places, activities, last);
}

// Takes the variable on top out.
fn take_top(members: &mut Vec<u32>, places: &mut [usize], activities: &[u64]) -> u32
    requires { 1 ≤ length members.old.items }
    ensures permuted { IsPermutation members.old.items (result ∷ members.new.items) }
    ensures fewer { length members.new.items + 1 ≡ length members.old.items }
    ensures capacity { vec_capacity members.new ≡ vec_capacity members.old }
{
    let var = members.swap_remove(0);
    if !members.is_empty() {
        note(places, members[0], 0);
        sift_down(members, places, activities, 0);
    }
    var
}

// Takes the variable of that index out.
fn take_out(taken: &mut Vec<u32>, index: usize) -> u32
    requires { index < length taken.old.items }
    ensures var { result ≡ slice_index taken.old.items index }
    ensures permuted { IsPermutation taken.old.items (result ∷ taken.new.items) }
    ensures fewer { length taken.new.items + 1 ≡ length taken.old.items }
    ensures capacity { vec_capacity taken.new ≡ vec_capacity taken.old }
{
    taken.swap_remove(index)
}

impl ActivityHeap {
    /// No variable.
    pub(crate) fn new(alloc: Global) -> ActivityHeap
        ensures { result ≡ record { members = []; taken = [] } }
    {
        ActivityHeap {
            members: Vec::new(alloc),
            taken: Vec::new(alloc),
            places: Vec::new(alloc),
            activities: Vec::new(alloc),
            step: FIRST_STEP,
        }
    }

    /// Adds a variable to the heap.
    pub(crate) fn add(&mut self, var: u32) -> Result<(), NoMemory>
        ensures members { OnOk result (IsPermutation (var ∷ self.old.members) self.new.members) }
        ensures taken { self.new.taken ≡ self.old.taken }
        ensures err { OnErr result (self.new ≡ self.old) }
    {
        let room = self.places.len().max(var as usize + 1);
        self.places.resize(room, 0)?;
        self.activities.resize(room, 0)?;
        self.members.reserve(1 + self.taken.len())?;
        self.taken.reserve(1 + self.members.len())?;
        put(&mut self.members, &mut self.places, &self.activities, var);
        Ok(())
    }

    /// How many variables were added, as far as 32 bits count them.
    pub(crate) fn vars(&self) -> u32 {
        (self.members.len() + self.taken.len()).min(u32::MAX as usize) as u32
    }

    /// How many variables were taken out.
    pub(crate) fn taken(&self) -> usize
        ensures { result ≡ length self.now.taken }
    {
        self.taken.len()
    }

    /// The variable of that index among those that were taken out.
    pub(crate) fn taken_at(&self, index: usize) -> u32
        requires { index < length self.now.taken }
        ensures { result ≡ slice_index self.now.taken index }
    {
        self.taken[index]
    }

    /// Puts the variable of that index among those that were taken out back into the heap; the last of them gets
    /// its place. It takes no memory.
    pub(crate) fn put_back(&mut self, index: usize)
        requires { index < length self.old.taken }
        ensures members { IsPermutation (slice_index self.old.taken index ∷ self.old.members) self.new.members }
        ensures taken { IsPermutation self.old.taken (slice_index self.old.taken index ∷ self.new.taken) }
        ensures fewer { length self.new.taken + 1 ≡ length self.old.taken }
    {
        let var = take_out(&mut self.taken, index);
        put(&mut self.members, &mut self.places, &self.activities, var);
    }

    /// Takes the variable on top out; none exactly where the heap is empty. It takes no memory.
    pub(crate) fn pop(&mut self) -> Option<u32>
        ensures some { IfSome result (λ var. IsPermutation self.old.members (var ∷ self.new.members)
            × (self.new.taken ≡ self.old.taken ++ var ∷ [])) }
        ensures fewer { IfSome result (λ _. length self.new.members + 1 ≡ length self.old.members) }
        ensures none { IfNone result ((self.old.members ≡ []) × (self.new ≡ self.old)) }
    {
        if self.members.is_empty() {
            return None;
        }
        let var = take_top(&mut self.members, &mut self.places, &self.activities);
        self.taken.push_reserved(var);
        Some(var)
    }

    // Makes all activities smaller.
    fn rescale(&mut self)
        ensures { self.new ≡ self.old }
    {
        for activity in &mut self.activities {
            *activity >>= BITS;
        }
        self.step = (self.step >> BITS).max(1);
    }

    // Adds to the activity of a variable; whether it has one.
    fn raise(&mut self, var: u32) -> bool
        ensures { self.new ≡ self.old }
    {
        let Some(activity) = self.activities.get_mut(var as usize) else {
            return false;
        };
        *activity = activity.saturating_add(self.step);
        if *activity > LIMIT {
            self.rescale();
        }
        true
    }

    /// Makes a variable more active. It takes no memory.
    pub(crate) fn bump(&mut self, var: u32)
        ensures members { IsPermutation self.old.members self.new.members }
        ensures taken { self.new.taken ≡ self.old.taken }
    {
        if !self.raise(var) {
            return;
        }
        let place = self.places.get(var as usize).copied().unwrap_or(0);
        if place < self.members.len() && self.members[place] == var {
            sift_up(&mut self.members, &mut self.places, &self.activities, place);
        }
    }

    /// Makes what a further bump adds larger, and so what was added before smaller beside it.
    pub(crate) fn decay(&mut self)
        ensures { self.new ≡ self.old }
    {
        self.step = self.step.saturating_add(self.step / DECAY + 1);
    }
}
