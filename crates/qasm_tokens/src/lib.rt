//! The tokens of circuit files (OpenQASM 2.0).
#![tactic(auto)]

mod lexeme;
mod piece;
mod scan;
mod text_tokens;
mod token;
mod token_fault;
mod token_laws;

pub use text_tokens::TextTokens;
pub use token::{Keyword, PlacedToken, Sign, Token, TokenSource};
pub use token_fault::TokenFault;
pub use token_laws::{longest_match, one_reading};
