//! Lists of angles.

ghost use Rattle.std.specs.Prelude.{◌≡◌, ◌≤◌, All, IfOk};
ghost use Rattle.circuit_core.specs.Angle.{nodes_of};

use crate::angle::Angle;
use qc_base::{Items, NoMemory};
use std::alloc::Global;

/// Angles in order. Clauses see the list.
pub type Angles = Items<Angle>;

/// A list of equal angles.
pub(crate) fn copy_of(alloc: Global, angles: &Angles) -> Result<Angles, NoMemory>
    requires { All (λ angle. nodes_of angle ≤ 1000) angles.now }
    ensures { IfOk result (λ copy. copy ≡ angles.now) }
{
    let mut items = Vec::new(alloc);
    for angle in angles.items() {
        items.push(angle.copy(alloc)?)?;
    }
    Ok(Items::from_vec(items))
}
