//! The most active variable comes first.

ghost use Rattle.std.specs.Prelude.{◌≡◌, ◌≢◌, ℕ, ◌+◌, ◌≤◌, ◌<◌, length, None, IsTrue, IfSome, IfNone};
ghost use Rattle.solver_trail.specs.Trail.{value_in, IsUnassigned};

use crate::activity_heap::ActivityHeap;
use crate::pick::Pick;
use crate::values::Values;
use qc_base::NoMemory;
use sat_base::Lit;
use std::alloc::Global;
use std::marker::Model;

/// Picks the unassigned variable that is the most active, with the sign that it had last. A variable gets more active
/// whenever it is met, by more after each conflict. Contracts see how many variables it made room for.
#[derive(Debug, Drop)]
pub struct Recent {
    heap: ActivityHeap,
    // Whether a variable was met after the last pick.
    met: bool,
}

impl Model for Recent {
    ghost use Rattle.std.specs.Prelude.{ℕ, ◌+◌, length};

    ghost Value = { ℕ };

    ghost view = { λ r. length r.heap.members + length r.heap.taken };
}

// The first variable without a value.
fn first_unassigned(values: &Values) -> Option<u32>
    ensures some { IfSome result (λ var. IsUnassigned values.now var) }
    ensures none { IfNone result ((var : ℕ) → IsUnassigned values.now var → ⊥) }
{
    for index in 0..values.vars() {
        if values.get(index + 1).is_none() {
            return Some(index + 1);
        }
    }
    None
}

// Whether it is a variable without a value.
fn is_unassigned(values: &Values, var: u32) -> bool
    ensures { IsTrue result → IsUnassigned values.now var }
{
    if var == 0 || var > values.vars() {
        return false;
    }
    values.get(var).is_none()
}

impl Recent {
    /// No variable.
    pub fn new(alloc: Global) -> Recent
        ensures { result ≡ 0 }
    {
        Recent {
            heap: ActivityHeap::new(alloc),
            met: false,
        }
    }

    // Puts the unassigned variables back into the heap.
    fn put_back(&mut self, values: &Values) {
        let mut index = 0;
        while index < self.heap.taken() {
            if is_unassigned(values, self.heap.taken_at(index)) {
                self.heap.put_back(index);
            } else {
                index += 1;
            }
        }
    }

    // The most active unassigned variable, as far as the heap has it. It takes those before it out of the heap.
    fn most_active(&mut self, values: &Values) -> Option<u32>
        ensures { IfSome result (λ var. IsUnassigned values.now var) }
    {
        while let Some(var) = self.heap.pop() {
            if is_unassigned(values, var) {
                return Some(var);
            }
        }
        None
    }
}

impl Pick for Recent {
    fn grow(&mut self, n: u32) -> Result<(), NoMemory> {
        let had = self.heap.vars();
        for index in 0..n {
            let Some(var) = had.checked_add(index + 1) else {
                return Ok(());
            };
            self.heap.add(var)?;
        }
        Ok(())
    }

    fn met(&mut self, var: u32) {
        self.met = true;
        self.heap.bump(var);
    }

    fn pick(&mut self, values: &Values) -> Option<Lit>
        ensures some { IfSome result (λ literal. IsUnassigned values.now literal.var) }
        ensures none { IfNone result ((var : ℕ) → IsUnassigned values.now var → ⊥) }
    {
        if self.met {
            self.heap.decay();
        }
        // Only a conflict and a new start make variables unassigned.
        if self.met || values.level() <= 1 {
            self.put_back(values);
        }
        self.met = false;
        let var = match self.most_active(values) {
            Some(var) => var,
            None => first_unassigned(values)?,
        };
        Some(values.as_before(var))
    }
}
