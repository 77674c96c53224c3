//! Reading a text piece by piece.

ghost use Rattle.std.specs.Prelude.{◌≡◌, ◌<◌, ◌≤◌, ℕ, List, [], length, drop, Ok, Err, IfOk, IfSome, MatchResult};
ghost use Rattle.std.specs.Option.{option_map};
ghost use Rattle.std.specs.Result.{result_err};
ghost use Rattle.qasm_tokens.specs.Tokens.{open_after_sign, open_after, tokens_from, tokens_of};
ghost use Rattle.qasm_tokens.specs.Pieces.{real_len};
ghost use Rattle.qasm_tokens.specs.Scan.{token_seen, after_token, Reads, rest_from, IsNext, HasNoReal};

use crate::lexeme::{Lexeme, PlacedLexeme, lexeme_of};
use crate::piece::{Shape, digits_len, piece_of, real_len};
use crate::token::Sign;
use crate::token_fault::TokenFault;

/// How many parentheses are open after a sign.
#[tactic(auto, unfolding(crate::specs::Tokens::open_after_sign))]
fn open_after_sign(at: u64, depth: u32, sign: Sign) -> Result<u32, TokenFault>
    ensures { result ≡ open_after_sign at depth sign }
{
    match sign {
        Sign::LeftParenthesis if depth < 100 => Ok(depth + 1),
        Sign::LeftParenthesis => Err(TokenFault::Deep { at }),
        Sign::RightParenthesis => Ok(depth.saturating_sub(1)),
        Sign::Semicolon | Sign::LeftBrace | Sign::RightBrace => Ok(0),
        _ => Ok(depth),
    }
}

/// How many parentheses are open after a piece.
#[tactic(auto, unfolding(crate::specs::Tokens::open_after))]
fn open_after(at: u64, depth: u32, shape: Shape) -> Result<u32, TokenFault>
    ensures { result ≡ open_after at depth shape }
{
    match shape {
        Shape::Sign(sign) => open_after_sign(at, depth, sign),
        _ => Ok(depth),
    }
}

/// A piece: the token that it is, if any, its length, and how many parentheses are open after it.
#[derive(Clone, Copy)]
struct Step<'a> {
    lexeme: Option<Lexeme<'a>>,
    length: usize,
    depth: u32,
}

/// Reads the piece at the front of a text, given how long the real there is.
fn first_step(at: u64, depth: u32, text: &[u8], real: usize) -> Result<Step, TokenFault>
    requires some { 0 < length text.now }
    requires real { real ≡ real_len text.now }
    ensures { MatchResult result
        (λ step. Reads at depth text.now (option_map token_seen step.lexeme) step.length step.depth)
        (λ fault. tokens_from at depth 0 text.now ≡ Err fault) }
{
    let Some(piece) = piece_of(text, real) else {
        return Err(TokenFault::Lex { at });
    };
    let lexeme = lexeme_of(at, piece.shape, &text[..piece.length])?;
    let depth = open_after(at, depth, piece.shape)?;
    Ok(Step {
        lexeme,
        length: piece.length,
        depth,
    })
}

/// Where a text is read: its place, and how many parentheses are open there.
#[derive(Clone, Copy, Debug)]
pub(crate) struct Scanner<'a> {
    bytes: &'a [u8],
    at: usize,
    depth: u32,
    /// No real begins from the place on up to there: digits that no point and no exponent follow aren't gone over
    /// twice.
    plain: usize,
    ghost within: { at ≤ length bytes.now },
    ghost no_real: { HasNoReal bytes.now at plain },
}

impl<'a> Scanner<'a> {
    /// A scanner at the front of a text.
    pub(crate) fn new(bytes: &'a [u8]) -> Scanner<'a>
        ensures { rest_from result.bytes.now result.at result.depth ≡ tokens_of bytes.now }
    {
        Scanner {
            bytes,
            at: 0,
            depth: 0,
            plain: 0,
        }
    }

    /// How long the real at the place is.
    fn real_here(&mut self) -> usize
        ensures exact { result ≡ real_len (drop self.old.at self.old.bytes.now) }
        ensures bytes { self.new.bytes.now ≡ self.old.bytes.now }
        ensures at { self.new.at ≡ self.old.at }
        ensures depth { self.new.depth ≡ self.old.depth }
    {
        if self.at < self.plain {
            return 0;
        }
        let text = &self.bytes[self.at..];
        let real = real_len(text);
        if real == 0 {
            self.plain = self.at + digits_len(text);
        }
        real
    }

    /// The next token where it lies.
    pub(crate) fn next_lexeme(&mut self) -> Result<Option<PlacedLexeme<'a>>, TokenFault>
        ensures next { MatchResult result
            (λ next. IsNext next (rest_from self.old.bytes.now self.old.at self.old.depth)
            (rest_from self.new.bytes.now self.new.at self.new.depth))
            (λ fault. rest_from self.old.bytes.now self.old.at self.old.depth ≡ Err fault) }
        ensures same { self.new.bytes.now ≡ self.old.bytes.now }
        ensures further { IfOk result (λ next. IfSome next (λ placed. self.old.at < self.new.at)) }
    {
        while self.at < self.bytes.len() {
            let at = self.at as u64;
            let real = self.real_here();
            let step = first_step(at, self.depth, &self.bytes[self.at..], real)?;
            self.at += step.length;
            self.depth = step.depth;
            if let Some(lexeme) = step.lexeme {
                return Ok(Some(PlacedLexeme { at, lexeme }));
            }
        }
        Ok(None)
    }
}

/// The first fault of a text's tokens.
pub(crate) fn check_tokens(bytes: &[u8]) -> Result<(), TokenFault>
    ensures { result_err result ≡ result_err (tokens_of bytes.now) }
{
    let mut scanner = Scanner::new(bytes);
    while scanner.next_lexeme()?.is_some() {}
    Ok(())
}
