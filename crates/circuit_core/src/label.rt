//! How qubits and bits are written.

ghost use Rattle.std.specs.Prelude.{◌≡◌, ◌++◌, OnOk};
ghost use Rattle.std.specs.Option.{option_map};
ghost use Rattle.std.specs.Str.{bytes_eq};
ghost use Rattle.circuit_core.specs.Label.{index_text, label_in, labelled};

use crate::circuit::{Circuit, Reg};
use itoa::Buffer;
use qc_base::{NoMemory, Qubit};

// Appends an index in brackets.
fn push_index(out: &mut Vec<u8>, index: u32) -> Result<(), NoMemory>
    ensures { OnOk result (out.new.items ≡ out.old.items ++ index_text index) }
{
    let mut buffer = Buffer::new();
    out.extend_from_slice(b"[")?;
    out.extend_from_slice(buffer.format(index).as_bytes())?;
    out.extend_from_slice(b"]")?;
    Ok(())
}

/// Appends the label of that number, counted through these registers: a register's name and the index in
/// brackets. Where they have fewer it appends nothing.
pub fn push_label(out: &mut Vec<u8>, regs: &[Reg], number: u32) -> Result<(), NoMemory>
    ensures { OnOk result (out.new.items ≡ out.old.items ++ label_in regs.now number) }
{
    let mut index = number;
    for reg in regs {
        if index < reg.size {
            out.extend_from_slice(reg.name.bytes())?;
            push_index(out, index)?;
            return Ok(());
        }
        index -= reg.size;
    }
    Ok(())
}

// Whether the text is that index in brackets.
fn is_index(text: &[u8], index: u32) -> bool
    ensures { result ≡ bytes_eq (index_text index) text.now }
{
    let mut buffer = Buffer::new();
    let Some(rest) = text.strip_prefix(b"[") else {
        return false;
    };
    match rest.strip_prefix(buffer.format(index).as_bytes()) {
        Some(rest) => rest == b"]".as_slice(),
        None => false,
    }
}

// Whether the text is that index of the register.
fn is_in_register(text: &[u8], reg: &Reg, index: u32) -> bool
    ensures { result ≡ bytes_eq (reg.now.name ++ index_text index) text.now }
{
    match text.strip_prefix(reg.name.bytes()) {
        Some(rest) => is_index(rest, index),
        None => false,
    }
}

// Whether the text is the label of the qubit of that number in these registers.
fn is_label(text: &[u8], regs: &[Reg], number: u32) -> bool
    ensures { result ≡ bytes_eq (label_in regs.now number) text.now }
{
    let mut index = number;
    for reg in regs {
        if index < reg.size {
            return is_in_register(text, reg, index);
        }
        index -= reg.size;
    }
    text.is_empty()
}

impl Circuit {
    /// The qubit that is written so: a register's name, and the index in brackets.
    pub fn find(&self, label: &[u8]) -> Option<Qubit>
        ensures { option_map (λ qubit. qubit.0) result ≡ labelled self.now label.now }
    {
        let regs = self.qregs();
        for number in 0..self.qubits() {
            if is_label(label, regs, number) {
                return Some(Qubit(number));
            }
        }
        None
    }
}
