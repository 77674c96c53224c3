//! From which step on all that has to come before an operation is done.

ghost use Rattle.std.specs.Prelude.{◌≡◌, ℕ, ◌<◌, ◌≤◌, length, fold, IfOk};
ghost use Rattle.circuit_core.specs.Nearest.{IsListed};
ghost use Rattle.circuit_core.specs.Order.{is_performed as performed_in};
ghost use Rattle.schedule_play.specs.Ready.{AreDoneAfter, noted, settled_after as settled_in, IsReadyThroughout};

use circuit_core::{Circuit, Nearest};
use qc_base::{NoMemory, OpId};
use std::alloc::Global;
use step_rules::{Action, Step};

/// Whether there is such an operation, and an action performs it; a barrier is performed by none.
pub(crate) fn is_performed(circuit: &Circuit, op: OpId) -> bool
    ensures { result ≡ performed_in circuit.now op.0 }
{
    match circuit.op(op) {
        Some(op) => !op.is_barrier(),
        None => false,
    }
}

// An action of the step of that number.
fn note(firsts: &mut Vec<u64>, number: u64, action: &Action)
    ensures { firsts.new.items ≡ noted number firsts.old.items action.now }
{
    if let Action::Op { op, .. } = action {
        let at = op.0 as usize;
        if at < firsts.len() {
            firsts[at] = firsts[at].min(number);
        }
    }
}

// The actions of the step of that number.
fn note_step(firsts: &mut Vec<u64>, number: u64, actions: &[Action])
    ensures { firsts.new.items ≡ fold (noted number) firsts.old.items actions.now }
{
    for action in actions {
        note(firsts, number, action);
    }
}

// For each operation the number of the first step that performs it, counted from 1; the greatest number where none
// does.
fn first_steps(alloc: Global, circuit: &Circuit, steps: &[Step]) -> Result<Vec<u64>, NoMemory>
    ensures len { IfOk result (λ firsts. length firsts.items ≡ length circuit.now.ops) }
    ensures done { IfOk result (λ firsts. AreDoneAfter steps.now firsts.items) }
{
    let mut firsts = vec![in alloc; u64::MAX; circuit.ops().len()]?;
    for (time, step) in steps.iter().enumerate() {
        note_step(&mut firsts, time as u64 + 1, step.actions());
    }
    Ok(firsts)
}

// After how many steps an operation and all before it are done.
fn settled_after(circuit: &Circuit, firsts: &[u64], ready: &[u64], op: OpId) -> u64
    requires ready { op.0 < length ready.now }
    requires firsts { op.0 < length firsts.now }
    ensures { result ≡ settled_in circuit.now firsts.now ready.now op.0 }
{
    let at = op.0 as usize;
    if is_performed(circuit, op) {
        firsts[at]
    } else {
        ready[at]
    }
}

// After how many steps all of these are done, and all before them.
fn all_settled_after(circuit: &Circuit, firsts: &[u64], ready: &[u64], nearest: &[OpId]) -> u64
    requires listed { (op : ℕ) → IsListed nearest.now op → op < length ready.now }
    requires firsts { length ready.now ≤ length firsts.now }
    ensures { (op : ℕ) → IsListed nearest.now op → settled_in circuit.now firsts.now ready.now op ≤ result }
{
    let mut last = 0;
    for op in nearest {
        last = settled_after(circuit, firsts, ready, *op).max(last);
    }
    last
}

/// For each operation after how many of the steps all that has to come before it is done, by the operations right
/// before it; the greatest number where that is never.
pub(crate) fn ready_steps(
    alloc: Global,
    circuit: &Circuit,
    steps: &[Step],
) -> Result<Vec<u64>, NoMemory>
    ensures { IfOk result (λ ready. IsReadyThroughout circuit.now steps.now ready.items) }
{
    let nearest = Nearest::new(alloc, circuit)?;
    let firsts = first_steps(alloc, circuit, steps)?;
    let mut ready = Vec::new(alloc);
    for number in 0..circuit.ops().len() as u32 {
        let before = nearest.of(OpId(number));
        ready.push(all_settled_after(circuit, &firsts, &ready, before))?;
    }
    Ok(ready)
}
