//! Expressions.

use circuit_core::{BinOp, FunName};
use qc_base::{Items, Name};
use sqlite_items::Boxed;

/// An expression, as it is written, but for its parentheses.
#[derive(Debug, Drop)]
pub enum Exp {
    Real(Name),
    Int(u64),
    Pi,
    Neg(Boxed<Exp>),
    Bin(BinOp, Boxed<Exp>, Boxed<Exp>),
    Fun(FunName, Boxed<Exp>),
    Id(Name),
}

/// Expressions, in order.
pub type Exps = Items<Exp>;
