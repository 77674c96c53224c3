//! How a clause stands where some literals are true.

ghost use Rattle.std.specs.Prelude.{◌≡◌};
ghost use Rattle.lrat_out.specs.declared.standing.Standing.TheVariants.{OneOpen as AOneOpen};
ghost use Rattle.lrat_out.specs.Standing.{standing, merged};

use sat_base::{Lit, LitSet};

/// How a clause stands.
#[derive(Clone, Copy, Debug, PartialEq, Eq)]
pub enum Standing {
    /// A literal of it is true.
    Holds,
    /// All its literals are false.
    Fails,
    /// This literal is unassigned, and all others are false.
    OneOpen(Lit),
    /// Two or more literals are unassigned, and all others are false.
    MoreOpen,
}

/// How the clause stands where the literals of the set are true.
pub fn standing_of(trues: &LitSet, clause: &[Lit]) -> Standing
    ensures { result ≡ standing trues.now clause.now }
{
    let mut so_far = Standing::Fails;
    for &lit in clause {
        if trues.has(lit) {
            return Standing::Holds;
        }
        if !trues.has(lit.negated()) {
            so_far = with_open(so_far, lit);
        }
    }
    so_far
}

// What comes of it with one unassigned literal more.
fn with_open(so_far: Standing, lit: Lit) -> Standing
    ensures { result ≡ merged so_far (AOneOpen lit) }
{
    match so_far {
        Standing::Holds => Standing::Holds,
        Standing::Fails => Standing::OneOpen(lit),
        Standing::OneOpen(_) | Standing::MoreOpen => Standing::MoreOpen,
    }
}
