//! What the definitions say of all texts.

ghost use Rattle.std.specs.Prelude.{◌≡◌, ℕ, List, Result};
ghost use Rattle.circuit_core.specs.Circuit.{CircuitValue};
ghost use Rattle.trap_parts.specs.Parts.{TrapValue};
ghost use Rattle.verify_core.specs.declared.judge.Checked.{Checked};
ghost use Rattle.verify_core.specs.declared.fault.CheckFault.{CheckFault};
ghost use Rattle.trap_parts.specs.Build.{IsTrap};
ghost use Rattle.circuit_core.specs.Circuit.{IsCircuit};
ghost use Rattle.verify_core.specs.declared.verify_fault.VerifyFault.{VerifyFault};
ghost use Rattle.verify_core.specs.Judging.{Judges};
ghost use Rattle.verify_core.specs.Verifying.{Verifies, IsVerified, IsLeastText};

use schedule_play::one_verdict;
use step_models::{every_schedule_fits, parts_are_small};

/// A text is judged in one way at most.
pub fn one_judgement()
    ensures { (trap : TrapValue) (circuit : CircuitValue) (bytes : List ℕ) (a b : Result Checked CheckFault)
        → Judges trap circuit bytes a → Judges trap circuit bytes b → a ≡ b }
{
    one_verdict();
}

/// A text and the bytes of a certificate are verified in one way at most.
pub fn one_verification()
    ensures { (trap : TrapValue) (circuit : CircuitValue) (text bytes : List ℕ) (a b : Result ℕ VerifyFault)
        → IsTrap trap → IsCircuit circuit
        → Verifies trap circuit text bytes a → Verifies trap circuit text bytes b → a ≡ b }
{
    one_verdict();
    parts_are_small();
}

/// Where a text is verified, its schedule is least, whoever wrote the certificate.
pub fn accepted_schedules_are_least()
    ensures { (trap : TrapValue) (circuit : CircuitValue) (text bytes : List ℕ) (steps : ℕ)
        → IsTrap trap → IsCircuit circuit → IsVerified trap circuit text bytes steps
        → IsLeastText trap circuit text steps }
{
    every_schedule_fits();
}
