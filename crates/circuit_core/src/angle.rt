//! Angles of operations, as they are written.

ghost use Rattle.std.specs.Prelude.{◌≡◌, ◌≤◌, ◌++◌, IfOk, OnOk, OnErr};

use crate::words::{BinOp, FunName};
use itoa::Buffer;
use qc_base::{Name, NoMemory};
use sqlite_items::Boxed;
use std::alloc::Global;

/// An angle, as it is written but for its parentheses. It has no value here.
#[derive(Debug, Drop)]
pub enum Angle {
    Real(Name),
    Int(u64),
    Pi,
    Neg(Boxed<Angle>),
    Bin(BinOp, Boxed<Angle>, Boxed<Angle>),
    Fun(FunName, Boxed<Angle>),
}

impl Angle {
    ghost use Rattle.circuit_core.specs.Angle.{nodes_of, text_of};

    /// How many nodes it has, at most 1,000.
    pub fn nodes(&self) -> u32
        requires { nodes_of self.now ≤ 1000 }
        ensures { result ≡ nodes_of self.now }
    {
        match self {
            Angle::Real(_) | Angle::Int(_) | Angle::Pi => 1,
            Angle::Neg(a) => a.get().nodes() + 1,
            Angle::Bin(_, a, b) => a.get().nodes() + b.get().nodes() + 1,
            Angle::Fun(_, a) => a.get().nodes() + 1,
        }
    }

    /// Writes it at the end of `out`, with parentheses around each negation and each pair. Where memory runs out,
    /// nothing is written.
    pub fn print(&self, out: &mut Vec<u8>) -> Result<(), NoMemory>
        requires { nodes_of self.now ≤ 1000 }
        ensures ok { OnOk result (out.new.items ≡ out.old.items ++ text_of self.now) }
        ensures err { OnErr result (out.new.items ≡ out.old.items) }
    {
        let mut text = Vec::new(*out.allocator());
        self.append(&mut text)?;
        out.extend_from_slice(&text)?;
        Ok(())
    }

    fn append(&self, out: &mut Vec<u8>) -> Result<(), NoMemory>
        requires { nodes_of self.now ≤ 1000 }
        ensures { OnOk result (out.new.items ≡ out.old.items ++ text_of self.now) }
    {
        match self {
            Angle::Real(name) => out.extend_from_slice(name.bytes())?,
            Angle::Int(n) => out.extend_from_slice(Buffer::new().format(*n).as_bytes())?,
            Angle::Pi => out.extend_from_slice(b"pi")?,
            Angle::Neg(a) => {
                out.extend_from_slice(b"(-")?;
                a.get().append(out)?;
                out.extend_from_slice(b")")?;
            }
            Angle::Bin(op, a, b) => {
                out.extend_from_slice(b"(")?;
                a.get().append(out)?;
                out.extend_from_slice(op.sign())?;
                b.get().append(out)?;
                out.extend_from_slice(b")")?;
            }
            Angle::Fun(f, a) => {
                out.extend_from_slice(f.word())?;
                out.extend_from_slice(b"(")?;
                a.get().append(out)?;
                out.extend_from_slice(b")")?;
            }
        }
        Ok(())
    }

    /// A value equal to it.
    pub fn copy(&self, alloc: Global) -> Result<Angle, NoMemory>
        requires { nodes_of self.now ≤ 1000 }
        ensures { IfOk result (λ angle. angle ≡ self.now) }
    {
        match self {
            Angle::Real(name) => Ok(Angle::Real(name.copy(alloc)?)),
            Angle::Int(n) => Ok(Angle::Int(*n)),
            Angle::Pi => Ok(Angle::Pi),
            Angle::Neg(a) => Ok(Angle::Neg(Boxed::new(alloc, a.get().copy(alloc)?)?)),
            Angle::Bin(op, a, b) => {
                let a = Boxed::new(alloc, a.get().copy(alloc)?)?;
                let b = Boxed::new(alloc, b.get().copy(alloc)?)?;
                Ok(Angle::Bin(*op, a, b))
            }
            Angle::Fun(f, a) => Ok(Angle::Fun(*f, Boxed::new(alloc, a.get().copy(alloc)?)?)),
        }
    }
}
