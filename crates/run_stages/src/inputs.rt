//! What the files of a circuit and a trap describe.

ghost use Rattle.std.specs.Prelude.{◌≡◌, IfOk, IfErr};
ghost use Rattle.run_stages.specs.Loading.{Reached, IsOfContent, expand_refusal, qasm_refusal, trap_refusal};
ghost use Rattle.qasm_read.specs.WellFormed.{AreWellFormed};
ghost use Rattle.placement.specs.Placing.{FitsZones};
ghost use Rattle.run_stages.specs.Stages.{Is};
ghost use Rattle.run_stages.specs.Prepare.{CircuitIn, TrapIn, circuit_of, inputs_of};

use circuit_core::Circuit;
use gate_expand::{ExpandFault, expand};
use qasm_read::{Program, QasmFault, read};
use run_answers::Answer;
use std::alloc::Global;
use trap_model::{GivenLabels, Trap};
use trap_read::TrapText;

/// A circuit and a trap, and the labels of qubits that the trap's file gives its zones.
#[derive(Debug, Drop)]
pub struct Inputs {
    pub circuit: Circuit,
    pub trap: Trap,
    pub labels: Option<GivenLabels>,
}

/// What the two files describe.
pub fn inputs_of(circuit: Circuit, file: (Trap, Option<GivenLabels>)) -> Inputs
    ensures { result ≡ inputs_of circuit file }
{
    let (trap, labels) = file;
    Inputs {
        circuit,
        trap,
        labels,
    }
}

/// The answer to a text that isn't a program.
fn qasm_refusal(fault: QasmFault) -> Answer
    ensures answer { result ≡ qasm_refusal fault }
    ensures kind { IsOfContent result }
{
    match fault {
        QasmFault::NoMemory => Answer::NoMemory,
        _ => Answer::Qasm(fault),
    }
}

/// The answer to a program that has no circuit.
fn expand_refusal(fault: ExpandFault) -> Answer
    ensures answer { result ≡ expand_refusal fault }
    ensures kind { IsOfContent result }
{
    match fault {
        ExpandFault::NoMemory => Answer::NoMemory,
        _ => Answer::Expand(fault),
    }
}

/// The answer to a text that isn't a trap.
fn trap_refusal(fault: TrapText) -> Answer
    ensures answer { result ≡ trap_refusal fault }
    ensures kind { IsOfContent result }
{
    match fault {
        TrapText::NoMemory => Answer::NoMemory,
        _ => Answer::Trap(fault),
    }
}

/// The circuit of a program.
fn circuit_of(alloc: Global, program: &Program) -> Result<Circuit, Answer>
    requires { AreWellFormed program.now }
    ensures reached { Reached (Is (circuit_of program.now)) result }
    ensures kind { IfErr result IsOfContent }
{
    match expand(alloc, program) {
        Ok(circuit) => Ok(circuit),
        Err(fault) => Err(expand_refusal(fault)),
    }
}

/// The circuit that the bytes describe.
pub fn circuit_in(alloc: Global, bytes: &[u8]) -> Result<Circuit, Answer>
    ensures reached { Reached (CircuitIn bytes.now) result }
    ensures kind { IfErr result IsOfContent }
{
    match read(alloc, bytes) {
        Ok(program) => circuit_of(alloc, &program),
        Err(fault) => Err(qasm_refusal(fault)),
    }
}

/// The trap that the bytes describe, and the labels.
pub fn trap_in(alloc: Global, bytes: &[u8]) -> Result<(Trap, Option<GivenLabels>), Answer>
    ensures reached { Reached (TrapIn bytes.now) result }
    ensures fits { IfOk result (λ file. FitsZones file.0 file.1) }
    ensures kind { IfErr result IsOfContent }
{
    match trap_read::read(alloc, bytes) {
        Ok(file) => Ok(file),
        Err(fault) => Err(trap_refusal(fault)),
    }
}
