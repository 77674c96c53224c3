//! Tokens, and where they come from.

ghost use Rattle.std.specs.Prelude.{◌≡◌, List, [], ◌∷◌, OnErr, IfOk, MatchOption};
ghost use Rattle.qasm_tokens.specs.declared.token.PlacedToken.{PlacedToken};

use qc_base::{Name, NoMemory};

/// A word with a meaning of its own.
#[derive(Clone, Copy, Debug, PartialEq, Eq)]
pub enum Keyword {
    OpenQasm,
    U,
    Cx,
    Include,
    Qreg,
    Creg,
    Gate,
    Opaque,
    Measure,
    Reset,
    Barrier,
    If,
    Pi,
    Sin,
    Cos,
    Tan,
    Exp,
    Ln,
    Sqrt,
}

/// A sign.
#[derive(Clone, Copy, Debug, PartialEq, Eq)]
pub enum Sign {
    Semicolon,
    Comma,
    LeftParenthesis,
    RightParenthesis,
    LeftBracket,
    RightBracket,
    LeftBrace,
    RightBrace,
    Plus,
    Minus,
    Star,
    Slash,
    Caret,
    Arrow,
    Equals,
}

/// A token. A string keeps its bytes without the quotes.
#[derive(Debug, Drop)]
pub enum Token {
    Keyword(Keyword),
    Identifier(Name),
    Integer(u64),
    Real(Name),
    Text(Name),
    Sign(Sign),
}

/// A token and the place of its first byte.
#[derive(Debug, Drop)]
pub struct PlacedToken {
    pub at: u64,
    pub token: Token,
}

/// Where tokens come from, one after another.
pub trait TokenSource {
    /// The tokens that are left.
    ghost left: { Self → List PlacedToken };

    /// The next token, or `None` at the end.
    fn next(&mut self) -> Result<Option<PlacedToken>, NoMemory>
        ensures ok { IfOk result (λ next. MatchOption next
            ((left self.old ≡ []) × (left self.new ≡ []))
            (λ token. left self.old ≡ token ∷ left self.new)) }
        ensures err { OnErr result (left self.new ≡ left self.old) };
}
