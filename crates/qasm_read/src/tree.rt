//! Expressions that are built while they are read.

ghost use Rattle.std.specs.Prelude.{◌≡◌, IfOk, Some};
ghost use Rattle.qasm_read.specs.Trees.{leaf, negated, joined, applied};

use crate::exp::Exp;
use qc_base::NoMemory;
use circuit_core::{BinOp, FunName};
use sqlite_items::Boxed;
use std::alloc::Global;

/// How many nodes an expression may have.
const LIMIT: u64 = 1000;

/// An expression and how many nodes it has. A larger one isn't built.
#[derive(Debug, Drop)]
pub struct Tree {
    pub exp: Exp,
    pub nodes: u32,
}

impl Tree {
    /// An expression of one node.
    pub fn leaf(exp: Exp) -> Option<Tree>
        ensures { result ≡ leaf exp }
    {
        Some(Tree { exp, nodes: 1 })
    }
}

/// The negated expression.
pub fn negated(alloc: Global, tree: Option<Tree>) -> Result<Option<Tree>, NoMemory>
    ensures { IfOk result (λ t. t ≡ negated tree) }
{
    let Some(Tree { exp, nodes }) = tree else {
        return Ok(None);
    };
    let nodes = u64::from(nodes) + 1;
    if nodes > LIMIT {
        return Ok(None);
    }
    let exp = Exp::Neg(Boxed::new(alloc, exp)?);
    Ok(Some(Tree {
        exp,
        nodes: nodes as u32,
    }))
}

/// The function of the expression.
pub fn applied(alloc: Global, f: FunName, tree: Option<Tree>) -> Result<Option<Tree>, NoMemory>
    ensures { IfOk result (λ t. t ≡ applied f tree) }
{
    let Some(Tree { exp, nodes }) = tree else {
        return Ok(None);
    };
    let nodes = u64::from(nodes) + 1;
    if nodes > LIMIT {
        return Ok(None);
    }
    let exp = Exp::Fun(f, Boxed::new(alloc, exp)?);
    Ok(Some(Tree {
        exp,
        nodes: nodes as u32,
    }))
}

/// The two expressions, joined by an operator.
pub fn joined(
    alloc: Global,
    op: BinOp,
    left: Option<Tree>,
    right: Option<Tree>,
) -> Result<Option<Tree>, NoMemory>
    ensures { IfOk result (λ t. t ≡ joined op left right) }
{
    let (Some(a), Some(b)) = (left, right) else {
        return Ok(None);
    };
    let nodes = u64::from(a.nodes) + u64::from(b.nodes) + 1;
    if nodes > LIMIT {
        return Ok(None);
    }
    let left = Boxed::new(alloc, a.exp)?;
    let right = Boxed::new(alloc, b.exp)?;
    Ok(Some(Tree {
        exp: Exp::Bin(op, left, right),
        nodes: nodes as u32,
    }))
}
