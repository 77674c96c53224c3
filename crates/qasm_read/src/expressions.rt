//! Expressions, read in frames, so that no depth of a text is a depth of calls.

ghost use Rattle.std.specs.Prelude.{◌≡◌, IfOk, Some};
ghost use Rattle.qasm_read.specs.Frames.{reduced};
ghost use Rattle.qasm_read.specs.Reading.{Gives};
ghost use Rattle.qasm_read.specs.Expressions.{Continues, wanted, there, next_operator, exp_at, tree_at};

use crate::exp::Exp;
use crate::frame::{Frame, strength};
use crate::frames::Frames;
use crate::start::{Start, start_of};
use crate::stop::Stop;
use crate::tokens::Tokens;
use crate::tree::Tree;
use circuit_core::BinOp;
use qasm_tokens::{Sign, TokenSource};
use qc_base::NoMemory;
use std::alloc::Global;

/// Reads an expression. One of more than 1,000 nodes is read, too, and not built.
#[tactic(auto, unfolding(crate::specs::Expressions::exp_at))]
pub fn expression<T: TokenSource + Drop>(alloc: Global, tokens: &mut Tokens<T>) -> Result<Exp, Stop>
    ensures { Gives result tokens.new (exp_at tokens.old) }
{
    let place = tokens.place();
    match tree(alloc, tokens)? {
        Some(tree) => Ok(tree.exp),
        None => {
            tokens.mark_large(place);
            Ok(Exp::Pi)
        }
    }
}

fn tree<T: TokenSource + Drop>(alloc: Global, tokens: &mut Tokens<T>) -> Result<Option<Tree>, Stop>
    ensures { Gives result tokens.new (tree_at tokens.old) }
{
    let mut frames = Frames::new(alloc);
    let mut tree = operand(tokens, &mut frames)?;
    loop {
        tree = match tokens.operator() {
            Some(op) => further(alloc, op, tokens, &mut frames, tree)?,
            None => {
                let inner = reduce(alloc, &mut frames, 1, tree)?;
                match frames.pop() {
                    None => return Ok(inner),
                    Some(frame) => {
                        tokens.skip(Sign::RightParenthesis)?;
                        frame.put(alloc, inner)?
                    }
                }
            }
        };
    }
}

/// Reads what is before the next whole part of an expression, and that part.
#[tactic(auto, using(crate::proofs::Runs::taken_by, crate::proofs::Runs::wanted_none, crate::proofs::Runs::wanted_frame, crate::proofs::Runs::wanted_whole, crate::proofs::Runs::wanted_nothing, crate::proofs::Runs::wanted_function, crate::proofs::Runs::wanted_unopened))]
fn operand<T: TokenSource + Drop>(
    tokens: &mut Tokens<T>,
    frames: &mut Frames,
) -> Result<Option<Tree>, Stop>
    ensures { Continues result tokens.old (wanted frames.old) tokens.new frames.new }
{
    loop {
        match start_of(tokens.next()?) {
            Start::Frame(frame) => frames.push(frame)?,
            Start::Function(f) => {
                tokens.skip(Sign::LeftParenthesis)?;
                frames.push(Frame::Function(f))?;
            }
            Start::Whole(exp) => return Ok(Tree::leaf(exp)),
            Start::Nothing => return Err(Stop::OtherForm),
        }
    }
}

/// Reads on after an operator.
fn further<T: TokenSource + Drop>(
    alloc: Global,
    op: BinOp,
    tokens: &mut Tokens<T>,
    frames: &mut Frames,
    tree: Option<Tree>,
) -> Result<Option<Tree>, Stop>
    requires { next_operator tokens.old ≡ Some op }
    ensures { Continues result tokens.old (there frames.old tree) tokens.new frames.new }
{
    tokens.next()?;
    let left = reduce(alloc, frames, strength(op), tree)?;
    frames.push(Frame::Left(op, left))?;
    operand(tokens, frames)
}

/// Puts the frames that hold as strongly as that around the expression.
fn reduce(
    alloc: Global,
    frames: &mut Frames,
    strength: u32,
    tree: Option<Tree>,
) -> Result<Option<Tree>, NoMemory>
    ensures { IfOk result (λ t. (frames.new, t) ≡ reduced strength frames.old tree) }
{
    let mut tree = tree;
    while let Some(frame) = frames.pop_holding(strength) {
        tree = frame.put(alloc, tree)?;
    }
    Ok(tree)
}
