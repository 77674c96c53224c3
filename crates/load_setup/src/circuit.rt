//! The circuit of a seed.

ghost use Rattle.std.specs.Prelude.{◌≡◌, ◌≢◌, ◌<◌, ◌∷◌, [], IfOk};
ghost use Rattle.load_setup.specs.Words.{next_state, word_after};
ghost use Rattle.load_setup.specs.Setup.{control_of, target_of, cx, gate_of, gates_from, sixty_qubits, generated_circuit};

use crate::words::Words;
use circuit_core::{Circuit, Op, Reg};
use qc_base::{Name, NoMemory, Qubit};
use std::alloc::Global;

/// How many gates each circuit has.
pub const GATES: usize = 2_000;

/// The qubit by a word, out of all sixty.
fn control_of(word: u64) -> u32
    ensures { result ≡ control_of word }
{
    (word % 60) as u32
}

/// The qubit by a word, out of all but the control.
fn target_of(control: u32, word: u64) -> u32
    ensures { result ≡ target_of control word }
{
    let number = (word % 59) as u32;
    if control <= number {
        number + 1
    } else {
        number
    }
}

/// CX by the next two words.
#[tactic(auto, unfolding(crate::specs::Setup::gate_of))]
fn next_gate(words: &mut Words) -> Op
    ensures gate { result ≡ gate_of (word_after words.old) (word_after (next_state words.old)) }
    ensures words { words.new ≡ next_state (next_state words.old) }
{
    let control = control_of(words.next());
    let target = target_of(control, words.next());
    Op::Cx {
        control: Qubit(control),
        target: Qubit(target),
        cond: None,
    }
}

/// So many gates by the words after a seed.
fn gates(alloc: Global, count: usize, seed: u64) -> Result<Vec<Op>, NoMemory>
    ensures { IfOk result (λ ops. ops.items ≡ gates_from count seed) }
{
    let mut words = Words::new(seed);
    let mut ops = Vec::new(alloc);
    for made in 0..count {
        ops.push(next_gate(&mut words))?;
    }
    Ok(ops)
}

fn qregs(alloc: Global) -> Result<Vec<Reg>, NoMemory>
    ensures { IfOk result (λ regs. regs.items ≡ sixty_qubits ∷ []) }
{
    let name = Name::from_bytes(alloc, b"q")?;
    let mut regs = Vec::new(alloc);
    regs.push(Reg { name, size: 60 })?;
    Ok(regs)
}

/// The circuit of a seed.
pub fn circuit_of(alloc: Global, seed: u64) -> Result<Circuit, NoMemory>
    ensures { IfOk result (λ circuit. circuit ≡ generated_circuit seed) }
{
    let ops = gates(alloc, GATES, seed)?;
    let qregs = qregs(alloc)?;
    Ok(Circuit::new(qregs, Vec::new(alloc), ops))
}
