//! The circuit of a program.

ghost use Rattle.std.specs.Prelude.{◌≡◌, IfOk};
ghost use Rattle.qasm_read.specs.WellFormed.{AreWellFormed};
ghost use Rattle.gate_names.specs.Causes.{Gives, Leaves};
ghost use Rattle.gate_expand.specs.Operations.{call_made, measure_made, reset_made, spread, resolved_made};
ghost use Rattle.gate_expand.specs.Program.{start, included, qreg_declared, creg_declared, barrier_done, opaque_statement, gate_statement, qop_done, conditional_done, conditional_statement, statement_done, circuit_of, expanded, IsExpansion};
ghost use Rattle.circuit_core.specs.Circuit.{IsCircuit};

use crate::checks::{all_qubits_of, measures_into, resolve};
use crate::fault::ExpandFault;
use crate::made::Made;
use crate::registers::{Registers, size_in};
use crate::resolved::Resolved;
use crate::wires::{Wires, distinct, qubits_at};
use crate::work::apply;
use circuit_core::{Circuit, Cond, Op};
use gate_names::{Cause, Counted, Gates, Meaning, Table, Term, declare_gate, declare_opaque};
use qasm_read::{Arg, BodyItem, Program, Qop, Statement};
use qc_base::{Bit, CregId, Items, Name, NoMemory, Qubit};
use std::alloc::Global;

/// How many qubits a circuit may have.
const MAX_QUBITS: u16 = 128;

/// How many bits a circuit may have.
const MAX_BITS: u16 = 4096;

/// What was declared and made so far.
#[derive(Drop)]
pub struct Expansion {
    table: Table,
    qregs: Registers,
    cregs: Registers,
    made: Made,
}

/// An application at each index.
#[tactic(auto, using(crate::proofs::Counting::spreading))]
fn make_calls(
    alloc: Global,
    gates: &Gates,
    cond: Option<Cond>,
    gate: usize,
    params: &[Term],
    wires: &[Wires],
    times: u16,
    made: &mut Made,
) -> Result<(), Cause>
    ensures { Leaves result made.new (spread (call_made gates.now cond gate params.now wires.now) 0 times made.old) }
{
    for index in 0..times {
        let qubits = qubits_at(alloc, wires, index)?;
        apply(alloc, gates, cond, gate, params, qubits, made)?;
    }
    Ok(())
}

/// A measurement at each index.
#[tactic(auto, using(crate::proofs::Counting::spreading))]
fn make_measures(
    cond: Option<Cond>,
    qubits: Wires,
    bits: Wires,
    times: u16,
    made: &mut Made,
) -> Result<(), Cause>
    ensures { Leaves result made.new (spread (measure_made cond qubits bits) 0 times made.old) }
{
    for index in 0..times {
        made.push(Op::Measure {
            qubit: Qubit(qubits.at(index)),
            bit: Bit(bits.at(index)),
            cond,
        })?;
    }
    Ok(())
}

/// A reset at each index.
#[tactic(auto, using(crate::proofs::Counting::spreading))]
fn make_resets(cond: Option<Cond>, qubits: Wires, times: u16, made: &mut Made) -> Result<(), Cause>
    ensures { Leaves result made.new (spread (reset_made cond qubits) 0 times made.old) }
{
    for index in 0..times {
        made.push(Op::Reset {
            qubit: Qubit(qubits.at(index)),
            cond,
        })?;
    }
    Ok(())
}

/// What an operation makes, under a condition.
fn make(
    alloc: Global,
    gates: &Gates,
    cond: Option<Cond>,
    op: &Resolved,
    made: &mut Made,
) -> Result<(), Cause>
    ensures { Leaves result made.new (resolved_made gates.now cond op.now made.old) }
{
    match op {
        Resolved::Application {
            gate,
            params,
            wires,
            times,
        } => make_calls(
            alloc,
            gates,
            cond,
            *gate,
            params.items(),
            wires.items(),
            *times,
            made,
        ),
        Resolved::Measure {
            qubits,
            bits,
            times,
            ..
        } => make_measures(cond, *qubits, *bits, *times, made),
        Resolved::Reset { qubits, times } => make_resets(cond, *qubits, *times, made),
    }
}

impl Expansion {
    /// Nothing is declared.
    fn start(alloc: Global) -> Result<Expansion, NoMemory>
        ensures { IfOk result (λ now. now ≡ start) }
    {
        Ok(Expansion {
            table: Table::new(alloc)?,
            qregs: Registers::new(alloc),
            cregs: Registers::new(alloc),
            made: Made::new(alloc),
        })
    }

    #[tactic(auto, unfolding(crate::specs::Program::included))]
    fn include(&mut self, text: &Name) -> Result<(), Cause>
        ensures { Leaves result self.new (included text.now self.old) }
    {
        if text.bytes() != b"qelib1.inc".as_slice() {
            return Err(Cause::Include);
        }
        self.table.include();
        Ok(())
    }

    #[tactic(auto, unfolding(crate::specs::Program::qreg_declared))]
    fn declare_qreg(&mut self, alloc: Global, name: &Name, size: u64) -> Result<(), Cause>
        ensures { Leaves result self.new (qreg_declared name.now size self.old) }
    {
        self.table.fresh(name)?;
        let first = self.qregs.total();
        let size = size_in(size, first, MAX_QUBITS, Counted::Qubits)?;
        self.table
            .declare_register(alloc, name, Meaning::Quantum { first, size })?;
        self.qregs.push(alloc, name, size)?;
        Ok(())
    }

    #[tactic(auto, unfolding(crate::specs::Program::creg_declared))]
    fn declare_creg(&mut self, alloc: Global, name: &Name, size: u64) -> Result<(), Cause>
        ensures { Leaves result self.new (creg_declared name.now size self.old) }
    {
        self.table.fresh(name)?;
        let first = self.cregs.total();
        let size = size_in(size, first, MAX_BITS, Counted::Bits)?;
        let creg = self.cregs.count();
        self.table
            .declare_register(alloc, name, Meaning::Classical { creg, first, size })?;
        self.cregs.push(alloc, name, size)?;
        Ok(())
    }

    #[tactic(auto, unfolding(crate::specs::Program::opaque_statement))]
    fn declare_opaque(
        &mut self,
        alloc: Global,
        name: &Name,
        params: &[Name],
        qubits: &[Name],
    ) -> Result<(), Cause>
        ensures { Leaves result self.new
            (opaque_statement name.now params.now qubits.now self.old) }
    {
        declare_opaque(alloc, &mut self.table, name, params, qubits)
    }

    #[tactic(auto, unfolding(crate::specs::Program::gate_statement))]
    fn declare_gate(
        &mut self,
        alloc: Global,
        name: &Name,
        params: &[Name],
        qubits: &[Name],
        body: &[BodyItem],
    ) -> Result<(), Cause>
        ensures { Leaves result self.new
            (gate_statement name.now params.now qubits.now body.now self.old) }
    {
        declare_gate(alloc, &mut self.table, name, params, qubits, body)
    }

    #[tactic(auto, unfolding(crate::specs::Program::qop_done))]
    fn operation(&mut self, alloc: Global, op: &Qop) -> Result<(), Cause>
        ensures { Leaves result self.new (qop_done op.now self.old) }
    {
        let op = resolve(alloc, &self.table, op)?;
        make(alloc, self.table.gates(), None, &op, &mut self.made)
    }

    #[tactic(auto, unfolding(crate::specs::Program::conditional_done))]
    fn conditional(&mut self, alloc: Global, creg: u16, value: u64, op: &Qop) -> Result<(), Cause>
        ensures { Leaves result self.new (conditional_done creg value op.now self.old) }
    {
        let op = resolve(alloc, &self.table, op)?;
        if measures_into(&op, creg) {
            return Err(Cause::SelfMeasure);
        }
        let cond = Cond {
            creg: CregId(u32::from(creg)),
            value,
        };
        make(alloc, self.table.gates(), Some(cond), &op, &mut self.made)
    }

    #[tactic(auto, unfolding(crate::specs::Program::conditional_statement))]
    fn conditional_on(
        &mut self,
        alloc: Global,
        creg: &Name,
        value: u64,
        op: &Qop,
    ) -> Result<(), Cause>
        ensures { Leaves result self.new (conditional_statement creg.now value op.now self.old) }
    {
        let creg = self.table.creg_named(creg)?;
        self.conditional(alloc, creg, value, op)
    }

    #[tactic(auto, unfolding(crate::specs::Program::barrier_done))]
    fn barrier(&mut self, alloc: Global, args: &[Arg]) -> Result<(), Cause>
        ensures { Leaves result self.new (barrier_done args.now self.old) }
    {
        let wires = all_qubits_of(alloc, &self.table, args)?;
        let qubits = Items::from_vec(distinct(alloc, &wires)?);
        self.made.push(Op::Barrier { qubits })
    }

    /// Takes a statement.
    #[tactic(auto, unfolding(crate::specs::Program::statement_done))]
    fn statement(&mut self, alloc: Global, statement: &Statement) -> Result<(), Cause>
        ensures { Leaves result self.new (statement_done statement.now self.old) }
    {
        match statement {
            Statement::Include { text } => self.include(text),
            Statement::Register {
                quantum: true,
                name,
                size,
            } => self.declare_qreg(alloc, name, *size),
            Statement::Register {
                quantum: false,
                name,
                size,
            } => self.declare_creg(alloc, name, *size),
            Statement::Gate {
                name,
                params,
                qubits,
                body,
            } => self.declare_gate(alloc, name, params.items(), qubits.items(), body.items()),
            Statement::Opaque {
                name,
                params,
                qubits,
            } => self.declare_opaque(alloc, name, params.items(), qubits.items()),
            Statement::Apply { op } => self.operation(alloc, op),
            Statement::Barrier { args } => self.barrier(alloc, args.items()),
            Statement::If { creg, value, op } => self.conditional_on(alloc, creg, *value, op),
        }
    }

    /// The circuit.
    fn finish(self) -> Circuit
        requires { IsCircuit (circuit_of self) }
        ensures { result ≡ circuit_of self }
    {
        let Expansion {
            qregs,
            cregs,
            made,
            ..
        } = self;
        Circuit::new(qregs.into_vec(), cregs.into_vec(), made.into_ops())
    }
}

/// The circuit of the program, or its first fault. The bodies of gates are no circuits: each application is replaced
/// by what its gate's body makes.
pub fn expand(alloc: Global, program: &Program) -> Result<Circuit, ExpandFault>
    requires { AreWellFormed program.now }
    ensures { IsExpansion (expanded program.now) result }
{
    let mut expansion = match Expansion::start(alloc) {
        Ok(expansion) => expansion,
        Err(NoMemory) => return Err(ExpandFault::NoMemory),
    };
    for placed in program.items() {
        if let Err(cause) = expansion.statement(alloc, &placed.statement) {
            return Err(ExpandFault::new(cause, placed.at));
        }
    }
    Ok(expansion.finish())
}
