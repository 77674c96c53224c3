//! Unit propagation along hints.

ghost use Rattle.std.specs.Prelude.{◌↔◌, map, All, IsTrue, IfOk};
ghost use Rattle.sat_base.specs.Fresh.{IsConsistent};
ghost use Rattle.lrat_out.specs.Lines.{IsNumber, clause_named};
ghost use Rattle.lrat_out.specs.Right.{Propagates};

use crate::proof::Proof;
use crate::standing::{Standing, standing_of};
use qc_base::NoMemory;
use sat_base::LitSet;

/// Whether the clauses that the hints name propagate, where the literals of the set are true. It adds to the set.
pub fn propagates(proof: &Proof, trues: &mut LitSet, hints: &[u64]) -> Result<bool, NoMemory>
    requires named { All (IsNumber proof.now) hints.now }
    requires consistent { IsConsistent trues.old }
    ensures { IfOk result (λ yes. IsTrue yes ↔ Propagates trues.old (map (clause_named proof.now) hints.now)) }
{
    for &hint in hints {
        let Some(clause) = proof.clause_of(hint) else {
            unreachable!();
        };
        match standing_of(trues, clause) {
            Standing::Fails => return Ok(true),
            Standing::OneOpen(lit) => trues.insert(lit)?,
            Standing::Holds => return Ok(false),
            Standing::MoreOpen => return Ok(false),
        }
    }
    Ok(false)
}
