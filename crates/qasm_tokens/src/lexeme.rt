//! Tokens whose text still lies in the file.

ghost use Rattle.std.specs.Prelude.{◌≡◌, ◌^◌, ℕ, nat_lt, IfOk, MatchResult, if◌then◌else◌};
ghost use Rattle.std.specs.Option.{option_map};
ghost use Rattle.std.specs.Str.Parse.{IsNumeral, digits_value};
ghost use Rattle.qasm_tokens.specs.Tokens.{upper_keyword, statement_keyword, angle_keyword, keyword_of, is_upper, short_token, word_token, token_of};
ghost use Rattle.qasm_tokens.specs.Scan.{token_seen, HasShape};

use crate::piece::Shape;
use crate::token::{Keyword, Sign, Token};
use crate::token_fault::TokenFault;
use qc_base::{Name, NoMemory};
use std::alloc::Global;

/// A token whose text still lies in the file.
#[derive(Clone, Copy, Debug)]
pub(crate) enum Lexeme<'a> {
    Keyword(Keyword),
    Identifier(&'a [u8]),
    Integer(u64),
    Real(&'a [u8]),
    Text(&'a [u8]),
    Sign(Sign),
}

/// A lexeme and the place of its first byte.
#[derive(Clone, Copy, Debug)]
pub(crate) struct PlacedLexeme<'a> {
    pub(crate) at: u64,
    pub(crate) lexeme: Lexeme<'a>,
}

#[tactic(auto, unfolding(crate::specs::Tokens::upper_keyword))]
fn upper_keyword(word: &[u8]) -> Option<Keyword>
    ensures { result ≡ upper_keyword word.now }
{
    if word == b"OPENQASM".as_slice() {
        Some(Keyword::OpenQasm)
    } else if word == b"U".as_slice() {
        Some(Keyword::U)
    } else if word == b"CX".as_slice() {
        Some(Keyword::Cx)
    } else {
        None
    }
}

#[tactic(auto, unfolding(crate::specs::Tokens::statement_keyword))]
fn statement_keyword(word: &[u8]) -> Option<Keyword>
    ensures { result ≡ statement_keyword word.now }
{
    if word == b"include".as_slice() {
        Some(Keyword::Include)
    } else if word == b"qreg".as_slice() {
        Some(Keyword::Qreg)
    } else if word == b"creg".as_slice() {
        Some(Keyword::Creg)
    } else if word == b"gate".as_slice() {
        Some(Keyword::Gate)
    } else if word == b"opaque".as_slice() {
        Some(Keyword::Opaque)
    } else if word == b"measure".as_slice() {
        Some(Keyword::Measure)
    } else if word == b"reset".as_slice() {
        Some(Keyword::Reset)
    } else if word == b"barrier".as_slice() {
        Some(Keyword::Barrier)
    } else if word == b"if".as_slice() {
        Some(Keyword::If)
    } else {
        None
    }
}

#[tactic(auto, unfolding(crate::specs::Tokens::angle_keyword))]
fn angle_keyword(word: &[u8]) -> Option<Keyword>
    ensures { result ≡ angle_keyword word.now }
{
    if word == b"pi".as_slice() {
        Some(Keyword::Pi)
    } else if word == b"sin".as_slice() {
        Some(Keyword::Sin)
    } else if word == b"cos".as_slice() {
        Some(Keyword::Cos)
    } else if word == b"tan".as_slice() {
        Some(Keyword::Tan)
    } else if word == b"exp".as_slice() {
        Some(Keyword::Exp)
    } else if word == b"ln".as_slice() {
        Some(Keyword::Ln)
    } else if word == b"sqrt".as_slice() {
        Some(Keyword::Sqrt)
    } else {
        None
    }
}

/// The keyword that a word is.
#[tactic(auto, unfolding(crate::specs::Tokens::keyword_of))]
fn keyword_of(word: &[u8]) -> Option<Keyword>
    ensures { result ≡ keyword_of word.now }
{
    upper_keyword(word).or(statement_keyword(word).or(angle_keyword(word)))
}

/// Whether a word begins with an upper-case letter.
fn is_upper(word: &[u8]) -> bool
    ensures { result ≡ is_upper word.now }
{
    match word.first() {
        Some(byte) => byte.is_ascii_uppercase(),
        None => false,
    }
}

/// The lexeme, if its text has at most 64 bytes.
fn short_lexeme<'a>(
    at: u64,
    lexeme: Lexeme<'a>,
    text: &'a [u8],
) -> Result<Option<Lexeme<'a>>, TokenFault>
    ensures { MatchResult result
        (λ found. short_token at (token_seen lexeme.entry) text.now ≡ Ok (option_map token_seen found))
        (λ fault. short_token at (token_seen lexeme.entry) text.now ≡ Err fault) }
{
    if text.len() <= 64 {
        Ok(Some(lexeme))
    } else {
        Err(TokenFault::LongWord { at })
    }
}

/// The keyword or identifier that a word is.
#[tactic(auto, unfolding(crate::specs::Tokens::word_token))]
fn word_lexeme(at: u64, word: &[u8]) -> Result<Option<Lexeme>, TokenFault>
    ensures { MatchResult result
        (λ found. word_token at (keyword_of word.now) word.now ≡ Ok (option_map token_seen found))
        (λ fault. word_token at (keyword_of word.now) word.now ≡ Err fault) }
{
    if let Some(keyword) = keyword_of(word) {
        return Ok(Some(Lexeme::Keyword(keyword)));
    }
    if is_upper(word) {
        return Err(TokenFault::Lex { at });
    }
    short_lexeme(at, Lexeme::Identifier(word), word)
}

/// The number that digits write, if it is below 2^64.
fn integer_of(digits: &[u8]) -> Option<u64>
    requires { IsNumeral 10 digits.now }
    ensures { result ≡ (if nat_lt (digits_value 10 digits.now) (2 ^ 64) then Some (digits_value 10 digits.now)
        else None) }
{
    match str::from_utf8(digits) {
        Ok(text) => text.parse::<u64>().ok(),
        Err(_) => None,
    }
}

/// The token that a piece of that shape and text is.
#[tactic(auto, unfolding(crate::specs::Tokens::token_of))]
pub(crate) fn lexeme_of<'a>(
    at: u64,
    shape: Shape,
    text: &'a [u8],
) -> Result<Option<Lexeme<'a>>, TokenFault>
    requires { HasShape shape text.now }
    ensures { MatchResult result
        (λ found. token_of at shape text.now ≡ Ok (option_map token_seen found))
        (λ fault. token_of at shape text.now ≡ Err fault) }
{
    match shape {
        Shape::Gap => Ok(None),
        Shape::Word => word_lexeme(at, text),
        Shape::Integer => match integer_of(text) {
            Some(value) => Ok(Some(Lexeme::Integer(value))),
            None => Err(TokenFault::BigNumber { at }),
        },
        Shape::Real => short_lexeme(at, Lexeme::Real(text), text),
        Shape::Text => short_lexeme(at, Lexeme::Text(&text[1..text.len() - 1]), text),
        Shape::Sign(sign) => Ok(Some(Lexeme::Sign(sign))),
    }
}

impl Lexeme<'_> {
    /// The token with a text of its own.
    pub(crate) fn token(self, alloc: Global) -> Result<Token, NoMemory>
        ensures { IfOk result (λ token. token ≡ token_seen self.entry) }
    {
        match self {
            Lexeme::Keyword(keyword) => Ok(Token::Keyword(keyword)),
            Lexeme::Identifier(text) => Ok(Token::Identifier(Name::from_bytes(alloc, text)?)),
            Lexeme::Integer(value) => Ok(Token::Integer(value)),
            Lexeme::Real(text) => Ok(Token::Real(Name::from_bytes(alloc, text)?)),
            Lexeme::Text(text) => Ok(Token::Text(Name::from_bytes(alloc, text)?)),
            Lexeme::Sign(sign) => Ok(Token::Sign(sign)),
        }
    }
}
