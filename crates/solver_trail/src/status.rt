//! What a partial assignment makes of a clause.

ghost use Rattle.std.specs.Prelude.{◌≤◌};
ghost use Rattle.sat_base.specs.Clauses.{EachVariable};
ghost use Rattle.solver_trail.specs.Trail.{literals_of};
ghost use Rattle.solver_trail.specs.Status.{HasStatus};

use crate::values::Values;
use sat_base::Lit;

/// Whether a clause has a true literal or two unassigned ones, or one that it forces, or none of these.
#[derive(Clone, Copy, Debug)]
pub enum Status {
    Closed,
    Unit(Lit),
    Falsified,
}

/// What the values make of the clause.
pub fn status_of(values: &Values, clause: &[Lit]) -> Status
    requires { EachVariable (λ var. var ≤ values.now.vars) clause.now }
    ensures { HasStatus (literals_of values.now.entries) clause.now result }
{
    let mut unassigned: Option<Lit> = None;
    for &literal in clause {
        match values.truth(literal) {
            Some(true) => return Status::Closed,
            Some(false) => {}
            None => {
                if let Some(first) = unassigned {
                    if first != literal {
                        return Status::Closed;
                    }
                }
                unassigned = Some(literal);
            }
        }
    }
    match unassigned {
        Some(literal) => Status::Unit(literal),
        None => Status::Falsified,
    }
}
