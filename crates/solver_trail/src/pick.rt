//! The choice of the next decision.

ghost use Rattle.std.specs.Prelude.{◌≡◌, ◌≢◌, ℕ, ◌≤◌, None, IfSome, IfNone};
ghost use Rattle.solver_trail.specs.Trail.{value_in, IsUnassigned};

use crate::values::Values;
use qc_base::NoMemory;
use sat_base::Lit;

/// Chooses what the solver decides next.
pub trait Pick {
    /// Makes room for so many further variables.
    fn grow(&mut self, n: u32) -> Result<(), NoMemory>;

    /// The variable is one of a line that was just derived, or of a line that it was derived from. It takes no memory.
    fn met(&mut self, var: u32);

    /// A literal of an unassigned variable; none exactly where all are assigned. It takes no memory.
    fn pick(&mut self, values: &Values) -> Option<Lit>
        ensures some { IfSome result (λ literal. IsUnassigned values.now literal.var) }
        ensures none { IfNone result ((var : ℕ) → IsUnassigned values.now var → ⊥) };
}
