//! The operators and functions of angles.

ghost use Rattle.std.specs.Prelude.{◌≡◌};

/// An operator between two expressions.
#[derive(Clone, Copy, Debug, PartialEq, Eq)]
pub enum BinOp {
    Add,
    Sub,
    Mul,
    Div,
    Pow,
}

/// A function of one expression.
#[derive(Clone, Copy, Debug, PartialEq, Eq)]
pub enum FunName {
    Sin,
    Cos,
    Tan,
    Exp,
    Ln,
    Sqrt,
}

impl BinOp {
    ghost use Rattle.circuit_core.specs.Angle.{sign_of};

    /// How it is written.
    pub fn sign(self) -> &'static [u8]
        ensures { result.now ≡ sign_of self }
    {
        match self {
            BinOp::Add => b"+",
            BinOp::Sub => b"-",
            BinOp::Mul => b"*",
            BinOp::Div => b"/",
            BinOp::Pow => b"^",
        }
    }
}

impl FunName {
    ghost use Rattle.circuit_core.specs.Angle.{word_of};

    /// How it is written.
    pub fn word(self) -> &'static [u8]
        ensures { result.now ≡ word_of self }
    {
        match self {
            FunName::Sin => b"sin",
            FunName::Cos => b"cos",
            FunName::Tan => b"tan",
            FunName::Exp => b"exp",
            FunName::Ln => b"ln",
            FunName::Sqrt => b"sqrt",
        }
    }
}
