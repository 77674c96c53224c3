//! The check of a schedule's text together with a certificate that none has fewer steps.

ghost use Rattle.std.specs.Prelude.{◌≡◌, ℕ, List, Some, Result, IsTrue, IfOk, IsErrOf};
ghost use Rattle.qc_base.specs.Causes.{Rose};
ghost use Rattle.qc_base.specs.Shelf.{OnlyReads};
ghost use Rattle.qc_base.specs.declared.ids.Qubit.{Qubit};
ghost use Rattle.circuit_core.specs.Circuit.{IsCircuit};
ghost use Rattle.trap_parts.specs.Build.{IsTrap};
ghost use Rattle.step_rules.specs.Setting.{setting_of};
ghost use Rattle.verify_core.specs.declared.verify_fault.VerifyFault.{VerifyFault as AFault};
ghost use Rattle.verify_core.specs.Verifying.{too_large, KeepsCounts, VerifiesUnlessFailed, IsLeastText, Verifies, IsAnswerUnlessFailed};

use crate::certificate::check_certificate;
use crate::judge::check;
use crate::laws::{accepted_schedules_are_least, one_judgement};
use crate::minimum::Minimum;
use crate::verify_fault::{Count, VerifyFault};
use circuit_core::Circuit;
use qc_base::Shelf;
use std::alloc::Global;
use trap_model::Trap;

/// The most bytes that a certificate has.
pub const LIMIT: u64 = 1 << 50;

// The first of the four counts that is above its limit.
fn first_excess(trap: &Trap, circuit: &Circuit, steps: u64) -> Option<VerifyFault>
    ensures excess { (placement : List (List Qubit))
        → result ≡ too_large (setting_of trap.now circuit.now placement) steps }
    ensures trap { IsTrap trap.now }
    ensures circuit { IsCircuit circuit.now }
{
    let ions = circuit.qubits() as u64;
    let places = trap.places() as u64;
    let ops = circuit.ops().len() as u64;
    let (what, count) = if ions > 16 {
        (Count::Ions, ions)
    } else if places > 48 {
        (Count::Places, places)
    } else if ops > 200 {
        (Count::Ops, ops)
    } else if steps > 48 {
        (Count::Steps, steps)
    } else {
        return None;
    };
    Some(VerifyFault::TooLarge { what, count })
}

/// Reads a schedule of the circuit on the trap and plays it, and reads a certificate under a name of the shelf,
/// in pieces: how many steps the schedule has, where it is legal and the certificate shows that none that plays
/// from its placement has fewer, whoever wrote it.
pub fn verify<S: Shelf>(
    alloc: Global,
    trap: &Trap,
    circuit: &Circuit,
    text: &[u8],
    shelf: &mut S,
    cert: &str,
) -> Result<u32, VerifyFault>
    ensures verifies { VerifiesUnlessFailed (S.facts shelf.old) cert.now trap.now circuit.now text.now result }
    ensures least { IfOk result (IsLeastText trap.now circuit.now text.now) }
    ensures exact { (bytes : List ℕ) (said : Result ℕ AFault) → IsTrue (S.facts shelf.old).known
        → (S.facts shelf.old).contents cert.now ≡ Some bytes
        → Verifies trap.now circuit.now text.now bytes said → IsAnswerUnlessFailed said result }
    ensures failed { IsErrOf result VerifyFault.Failed
        → Rose ((S.facts shelf.old).read_faults cert.now) ((S.facts shelf.new).read_faults cert.now) }
    ensures stays { KeepsCounts result (S.facts shelf.old) (S.facts shelf.new) }
    ensures reads { OnlyReads (S.facts shelf.old) (S.facts shelf.new) }
{
    one_judgement();
    accepted_schedules_are_least();
    let checked = check(alloc, trap, circuit, text)?;
    let steps = checked.schedule.steps().len() as u64;
    match first_excess(trap, circuit, steps) {
        Some(fault) => Err(fault),
        None => {
            let minimum = Minimum {
                alloc,
                trap,
                circuit,
                placement: &checked.placement,
                steps: steps as u32,
            };
            check_certificate(&minimum, shelf, cert)?;
            Ok(steps as u32)
        }
    }
}
