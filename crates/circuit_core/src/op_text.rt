//! How operations are written.

ghost use Rattle.std.specs.Prelude.{◌≡◌, ◌≤◌, ◌∷◌, [], ◌++◌, All, OnOk, map};
ghost use Rattle.circuit_core.specs.Angle.{nodes_of, text_of};
ghost use Rattle.circuit_core.specs.Op.{qubits_of, HasSmallAngles};
ghost use Rattle.circuit_core.specs.OpText.{with_commas, comma_before, qubits_text, params_text, reg_name, cond_text, verb_text, target_text, op_text};

use crate::angle::Angle;
use crate::circuit::Circuit;
use crate::label::push_label;
use crate::op::{Cond, Op};
use itoa::Buffer;
use qc_base::{CregId, NoMemory};

// Appends a comma where this isn't the first of a list.
fn push_comma(out: &mut Vec<u8>, index: usize) -> Result<(), NoMemory>
    ensures { OnOk result (out.new.items ≡ out.old.items ++ comma_before index) }
{
    if index > 0 {
        out.extend_from_slice(b",")?;
    }
    Ok(())
}

fn push_angles(out: &mut Vec<u8>, angles: &[Angle]) -> Result<(), NoMemory>
    requires { All (λ angle. nodes_of angle ≤ 1000) angles.now }
    ensures { OnOk result (out.new.items ≡ out.old.items ++ with_commas (map text_of angles.now)) }
{
    for (index, angle) in angles.iter().enumerate() {
        push_comma(out, index)?;
        angle.print(out)?;
    }
    Ok(())
}

fn push_params(out: &mut Vec<u8>, angles: &[Angle]) -> Result<(), NoMemory>
    requires { All (λ angle. nodes_of angle ≤ 1000) angles.now }
    ensures { OnOk result (out.new.items ≡ out.old.items ++ params_text angles.now) }
{
    if angles.is_empty() {
        return Ok(());
    }
    out.extend_from_slice(b"(")?;
    push_angles(out, angles)?;
    out.extend_from_slice(b")")?;
    Ok(())
}

fn push_three_params(
    out: &mut Vec<u8>,
    first: &Angle,
    second: &Angle,
    third: &Angle,
) -> Result<(), NoMemory>
    requires { All (λ angle. nodes_of angle ≤ 1000) (first.now ∷ second.now ∷ third.now ∷ []) }
    ensures { let angles = first.now ∷ second.now ∷ third.now ∷ [] in
        OnOk result (out.new.items ≡ out.old.items ++ params_text angles) }
{
    out.extend_from_slice(b"(")?;
    first.print(out)?;
    out.extend_from_slice(b",")?;
    second.print(out)?;
    out.extend_from_slice(b",")?;
    third.print(out)?;
    out.extend_from_slice(b")")?;
    Ok(())
}

fn push_reg_name(out: &mut Vec<u8>, circuit: &Circuit, creg: CregId) -> Result<(), NoMemory>
    ensures { OnOk result (out.new.items ≡ out.old.items ++ reg_name circuit.now creg.0) }
{
    if let Some(reg) = circuit.cregs().get(creg.0 as usize) {
        out.extend_from_slice(reg.name.bytes())?;
    }
    Ok(())
}

fn push_cond(out: &mut Vec<u8>, circuit: &Circuit, cond: Option<Cond>) -> Result<(), NoMemory>
    ensures { OnOk result (out.new.items ≡ out.old.items ++ cond_text circuit.now cond) }
{
    let Some(cond) = cond else {
        return Ok(());
    };
    let mut buffer = Buffer::new();
    out.extend_from_slice(b"if(")?;
    push_reg_name(out, circuit, cond.creg)?;
    out.extend_from_slice(b"==")?;
    out.extend_from_slice(buffer.format(cond.value).as_bytes())?;
    out.extend_from_slice(b") ")?;
    Ok(())
}

// Appends what is done, with the angles of a gate.
fn push_verb(out: &mut Vec<u8>, op: &Op) -> Result<(), NoMemory>
    requires { HasSmallAngles op.now }
    ensures { OnOk result (out.new.items ≡ out.old.items ++ verb_text op.now) }
{
    match op {
        Op::U {
            theta,
            phi,
            lambda,
            ..
        } => {
            out.extend_from_slice(b"U")?;
            push_three_params(out, theta, phi, lambda)?;
        }
        Op::Cx { .. } => out.extend_from_slice(b"CX")?,
        Op::Opaque { name, params, .. } => {
            out.extend_from_slice(name.bytes())?;
            push_params(out, params.items())?;
        }
        Op::Measure { .. } => out.extend_from_slice(b"measure")?,
        Op::Reset { .. } => out.extend_from_slice(b"reset")?,
        Op::Barrier { .. } => out.extend_from_slice(b"barrier")?,
    }
    Ok(())
}

fn push_qubits(out: &mut Vec<u8>, circuit: &Circuit, op: &Op) -> Result<(), NoMemory>
    ensures { OnOk result (out.new.items ≡ out.old.items ++ qubits_text circuit.now (qubits_of op.now)) }
{
    for index in 0..op.width() {
        push_comma(out, index)?;
        push_label(out, circuit.qregs(), op.qubit(index).0)?;
    }
    Ok(())
}

// Appends where the result of a measurement goes.
fn push_target(out: &mut Vec<u8>, circuit: &Circuit, op: &Op) -> Result<(), NoMemory>
    ensures { OnOk result (out.new.items ≡ out.old.items ++ target_text circuit.now op.now) }
{
    if let Op::Measure { bit, .. } = op {
        out.extend_from_slice(b" -> ")?;
        push_label(out, circuit.cregs(), bit.0)?;
    }
    Ok(())
}

/// Appends the text of an operation of the circuit. What the circuit doesn't have is left out.
pub fn push_op(out: &mut Vec<u8>, circuit: &Circuit, op: &Op) -> Result<(), NoMemory>
    requires { HasSmallAngles op.now }
    ensures { OnOk result (out.new.items ≡ out.old.items ++ op_text circuit.now op.now) }
{
    push_cond(out, circuit, op.cond())?;
    push_verb(out, op)?;
    out.extend_from_slice(b" ")?;
    push_qubits(out, circuit, op)?;
    push_target(out, circuit, op)?;
    out.extend_from_slice(b";")?;
    Ok(())
}
