//! The frames around an expression, from the innermost on.

ghost use Rattle.std.specs.Prelude.{◌≡◌, [], ◌∷◌, OnOk, MatchOption};
ghost use Rattle.qasm_read.specs.Frames.{taken};

use crate::frame::Frame;
use crate::kind::Kind;
use crate::tree::Tree;
use qc_base::NoMemory;
use std::alloc::Global;
use std::marker::Model;

/// The frames around an expression, from the innermost on. Only an operator takes room for an expression.
#[derive(Debug, Drop)]
pub struct Frames {
    kinds: Vec<Kind>,
    lefts: Vec<Option<Tree>>,
}

impl Model for Frames {
    ghost use Rattle.std.specs.Prelude.{List, reverse};
    ghost use Rattle.qasm_read.specs.declared.frame.Frame.{Frame};
    ghost use Rattle.qasm_read.specs.contracts.exp.Exp as expression;
    ghost use Rattle.qasm_read.specs.Kinds.{frames_of};
    ghost use Rattle.std.specs.Coded.{codes};

    ghost Value = { List Frame };

    ghost coded = { Prim.hlevel (codes, expression.the_row.coded) };

    ghost view = { λ f. frames_of (reverse f.kinds.items) (reverse f.lefts.items) };
}

impl Frames {
    /// No frame.
    pub fn new(alloc: Global) -> Frames
        ensures { result ≡ [] }
    {
        Frames {
            kinds: Vec::new(alloc),
            lefts: Vec::new(alloc),
        }
    }

    /// Puts a frame innermost.
    pub fn push(&mut self, frame: Frame) -> Result<(), NoMemory>
        ensures { OnOk result (self.new ≡ frame ∷ self.old) }
    {
        match frame {
            Frame::Parenthesis => self.kinds.push(Kind::Parenthesis)?,
            Frame::Function(f) => self.kinds.push(Kind::Function(f))?,
            Frame::Minus => self.kinds.push(Kind::Minus)?,
            Frame::Left(op, left) => {
                self.kinds.push(Kind::Left(op))?;
                self.lefts.push(left)?;
            }
        }
        Ok(())
    }

    /// Takes the innermost frame.
    pub fn pop(&mut self) -> Option<Frame>
        ensures { MatchOption result ((self.old ≡ []) × (self.new ≡ [])) (λ frame. self.old ≡ frame ∷ self.new) }
    {
        Some(match self.kinds.pop()? {
            Kind::Parenthesis => Frame::Parenthesis,
            Kind::Function(f) => Frame::Function(f),
            Kind::Minus => Frame::Minus,
            Kind::Left(op) => Frame::Left(op, self.lefts.pop().flatten()),
        })
    }

    /// Takes the innermost frame if it holds as strongly as that.
    pub fn pop_holding(&mut self, strength: u32) -> Option<Frame>
        ensures { (result, self.new) ≡ taken strength self.old }
    {
        match self.kinds.last() {
            Some(kind) if kind.hold() >= strength => self.pop(),
            _ => None,
        }
    }
}
