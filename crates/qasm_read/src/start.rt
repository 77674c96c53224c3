//! What a token begins in an expression.

ghost use Rattle.std.specs.Prelude.{◌≡◌};
ghost use Rattle.qasm_read.specs.Starts.{word_start, start_of, operator_of};

use crate::exp::Exp;
use crate::frame::Frame;
use qasm_tokens::{Keyword, Sign, Token};
use circuit_core::{BinOp, FunName};

/// What a token begins in an expression.
#[derive(Debug, Drop)]
pub enum Start {
    Frame(Frame),
    Function(FunName),
    Whole(Exp),
    Nothing,
}

/// What that word begins.
fn start_of_word(word: Keyword) -> Start
    ensures { result ≡ word_start word }
{
    match word {
        Keyword::Pi => Start::Whole(Exp::Pi),
        Keyword::Sin => Start::Function(FunName::Sin),
        Keyword::Cos => Start::Function(FunName::Cos),
        Keyword::Tan => Start::Function(FunName::Tan),
        Keyword::Exp => Start::Function(FunName::Exp),
        Keyword::Ln => Start::Function(FunName::Ln),
        Keyword::Sqrt => Start::Function(FunName::Sqrt),
        _ => Start::Nothing,
    }
}

/// What that token begins.
pub fn start_of(token: Token) -> Start
    ensures { result ≡ start_of token }
{
    match token {
        Token::Keyword(word) => start_of_word(word),
        Token::Identifier(name) => Start::Whole(Exp::Id(name)),
        Token::Integer(n) => Start::Whole(Exp::Int(n)),
        Token::Real(real) => Start::Whole(Exp::Real(real)),
        Token::Sign(Sign::Minus) => Start::Frame(Frame::Minus),
        Token::Sign(Sign::LeftParenthesis) => Start::Frame(Frame::Parenthesis),
        _ => Start::Nothing,
    }
}

/// Which operator that token is.
pub fn operator_of(token: &Token) -> Option<BinOp>
    ensures { result ≡ operator_of token.now }
{
    match token {
        Token::Sign(Sign::Plus) => Some(BinOp::Add),
        Token::Sign(Sign::Minus) => Some(BinOp::Sub),
        Token::Sign(Sign::Star) => Some(BinOp::Mul),
        Token::Sign(Sign::Slash) => Some(BinOp::Div),
        Token::Sign(Sign::Caret) => Some(BinOp::Pow),
        _ => None,
    }
}
