//! Kinds of frames.

ghost use Rattle.std.specs.Prelude.{◌≡◌, None};

use circuit_core::{BinOp, FunName};

/// What a frame is, without the expression to the left of an operator.
#[derive(Clone, Copy, Debug)]
pub enum Kind {
    Parenthesis,
    Function(FunName),
    Minus,
    Left(BinOp),
}

impl Kind {
    ghost use Rattle.qasm_read.specs.Frames.{hold_of};
    ghost use Rattle.qasm_read.specs.Kinds.{frame_of};

    /// How strongly it holds the expression after it. A parenthesis holds it until it is closed.
    pub fn hold(self) -> u32
        ensures { result ≡ hold_of (frame_of self None) }
    {
        match self {
            Kind::Parenthesis | Kind::Function(_) => 0,
            Kind::Left(BinOp::Add | BinOp::Sub) => 2,
            Kind::Left(BinOp::Mul | BinOp::Div) => 3,
            Kind::Minus | Kind::Left(BinOp::Pow) => 4,
        }
    }
}
