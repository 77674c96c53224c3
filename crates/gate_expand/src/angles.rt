//! Angles for the parameters of a gate.

ghost use Rattle.std.specs.Prelude.{◌≡◌, ◌≤◌, All, IfOk};
ghost use Rattle.circuit_core.specs.Angle.{nodes_of};
ghost use Rattle.gate_names.specs.Causes.{Gives};
ghost use Rattle.gate_expand.specs.Angles.{put, put_all, IsSmall, room_left};

use circuit_core::Angle;
use gate_names::{Cause, Term};
use qc_base::NoMemory;
use sqlite_items::Boxed;
use std::alloc::Global;

/// How many nodes an angle may have.
const MAX_NODES: u32 = 1000;

/// What is left of the room for nodes, once the angles are put for the parameters; none where there is too little.
fn room_after(room: u32, term: &Term, angles: &[Angle]) -> Option<u32>
    requires { All IsSmall angles.now }
    ensures { result ≡ room_left room (nodes_of (put angles.now term.now)) }
{
    match term {
        Term::Real(_) | Term::Int(_) | Term::Pi => room.checked_sub(1),
        Term::Neg(a) | Term::Fun(_, a) => room_after(room.checked_sub(1)?, a.get(), angles),
        Term::Bin(_, a, b) => {
            let room = room_after(room.checked_sub(1)?, a.get(), angles)?;
            room_after(room, b.get(), angles)
        }
        Term::Param(k) => match angles.get(*k) {
            Some(angle) => room.checked_sub(angle.nodes()),
            None => room.checked_sub(1),
        },
    }
}

/// The angle that it is with the angles put for the parameters.
fn put(alloc: Global, term: &Term, angles: &[Angle]) -> Result<Angle, NoMemory>
    requires { All IsSmall angles.now }
    ensures { IfOk result (λ angle. angle ≡ put angles.now term.now) }
{
    match term {
        Term::Real(text) => Ok(Angle::Real(text.copy(alloc)?)),
        Term::Int(n) => Ok(Angle::Int(*n)),
        Term::Pi => Ok(Angle::Pi),
        Term::Neg(a) => Ok(Angle::Neg(Boxed::new(alloc, put(alloc, a.get(), angles)?)?)),
        Term::Bin(op, a, b) => {
            let a = Boxed::new(alloc, put(alloc, a.get(), angles)?)?;
            let b = Boxed::new(alloc, put(alloc, b.get(), angles)?)?;
            Ok(Angle::Bin(*op, a, b))
        }
        Term::Fun(f, a) => Ok(Angle::Fun(*f, Boxed::new(alloc, put(alloc, a.get(), angles)?)?)),
        Term::Param(k) => match angles.get(*k) {
            Some(angle) => angle.copy(alloc),
            None => Ok(Angle::Pi),
        },
    }
}

/// The same of each, from left to right, up to the first that is too large.
pub fn put_all(alloc: Global, terms: &[Term], angles: &[Angle]) -> Result<Vec<Angle>, Cause>
    requires { All IsSmall angles.now }
    ensures angles { Gives (λ actual. actual.items) result (put_all angles.now terms.now) }
    ensures small { IfOk result (λ actual. All IsSmall actual.items) }
{
    let mut actual = Vec::new(alloc);
    for term in terms {
        if room_after(MAX_NODES, term, angles).is_none() {
            return Err(Cause::AngleLarge);
        }
        actual.push(put(alloc, term, angles)?)?;
    }
    Ok(actual)
}
