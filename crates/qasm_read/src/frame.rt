//! What is around an expression that is read.

ghost use Rattle.std.specs.Prelude.{◌≡◌, IfOk};
ghost use Rattle.qasm_read.specs.Frames.{strength_of, put_in};

use crate::tree::{Tree, applied, joined, negated};
use circuit_core::{BinOp, FunName};
use qc_base::NoMemory;
use std::alloc::Global;

/// What is before an expression that belongs to it.
#[derive(Debug, Drop)]
pub enum Frame {
    Parenthesis,
    Function(FunName),
    Minus,
    Left(BinOp, Option<Tree>),
}

/// How strongly an operator pulls at the expression before it. The end of an expression pulls at 1.
pub fn strength(op: BinOp) -> u32
    ensures { result ≡ strength_of op }
{
    match op {
        BinOp::Add | BinOp::Sub => 2,
        BinOp::Mul | BinOp::Div => 3,
        BinOp::Pow => 5,
    }
}

impl Frame {
    ghost use Rattle.qasm_read.specs.Frames.{put_in};

    /// The expression in it.
    pub fn put(self, alloc: Global, tree: Option<Tree>) -> Result<Option<Tree>, NoMemory>
        ensures { IfOk result (λ t. t ≡ put_in self tree) }
    {
        match self {
            Frame::Parenthesis => Ok(tree),
            Frame::Function(f) => applied(alloc, f, tree),
            Frame::Minus => negated(alloc, tree),
            Frame::Left(op, left) => joined(alloc, op, left, tree),
        }
    }
}
