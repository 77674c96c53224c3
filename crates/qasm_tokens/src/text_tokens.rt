//! The tokens of a text, one after another.

ghost use Rattle.std.specs.Prelude.{◌≡◌, Ok, Err, IfOk, MatchResult};
ghost use Rattle.qasm_tokens.specs.Tokens.{tokens_of};
ghost use Rattle.qasm_tokens.specs.TokenKinds.{AreTokens};

use crate::scan::{Scanner, check_tokens};
use crate::token::{PlacedToken, TokenSource};
use crate::token_fault::TokenFault;
use qc_base::NoMemory;
use std::alloc::Global;
use std::marker::Model;

/// The tokens of a text that has no fault. Clauses see the list of those that are left.
#[derive(Debug, Drop)]
pub struct TextTokens<'a> {
    alloc: Global,
    scanner: Scanner<'a>,
}

impl<'a> Model for TextTokens<'a> {
    ghost use Rattle.std.specs.Prelude.{List, [], IsOk};
    ghost use Rattle.std.specs.Result.{result_unwrap_or};
    ghost use Rattle.qasm_tokens.specs.declared.token.PlacedToken.{PlacedToken};
    ghost use Rattle.qasm_tokens.specs.Scan.{rest_from};

    ghost Value = { List PlacedToken };

    ghost view = { λ t. result_unwrap_or (rest_from t.scanner.bytes.now t.scanner.at t.scanner.depth) [] };

    ghost invariant = { λ t. IsOk (rest_from t.scanner.bytes.now t.scanner.at t.scanner.depth) };
}

impl<'a> TextTokens<'a> {
    /// The tokens of a text, or the first fault from the left. It takes no memory.
    pub fn new(alloc: Global, bytes: &'a [u8]) -> Result<TextTokens<'a>, TokenFault>
        ensures exact { MatchResult result
            (λ tokens. tokens_of bytes.now ≡ Ok tokens)
            (λ fault. tokens_of bytes.now ≡ Err fault) }
        ensures formed { IfOk result (λ tokens. AreTokens tokens) }
    {
        check_tokens(bytes)?;
        let scanner = Scanner::new(bytes);
        Ok(TextTokens { alloc, scanner })
    }
}

impl TokenSource for TextTokens<'_> {
    ghost left = { λ tokens. tokens };

    fn next(&mut self) -> Result<Option<PlacedToken>, NoMemory> {
        let mut ahead = self.scanner;
        let Ok(next) = ahead.next_lexeme() else {
            unreachable!();
        };
        let Some(placed) = next else {
            return Ok(None);
        };
        let token = placed.lexeme.token(self.alloc)?;
        self.scanner = ahead;
        Ok(Some(PlacedToken {
            at: placed.at,
            token,
        }))
    }
}
