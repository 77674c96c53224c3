//! What is at the front of a text.

ghost use Rattle.std.specs.Prelude.{◌≡◌, ◌≤◌, ℕ, length};
ghost use Rattle.std.specs.List.{prefix_len};
ghost use Rattle.std.specs.Char.{is_ascii_digit};
ghost use Rattle.qasm_tokens.specs.Pieces.{is_space, is_word_byte, is_string_byte, is_comment_byte, comment_len, word_len, integer_len, sign_len, exponent_len, fraction_len, real_len, string_len, sign_of_byte, sign_piece, piece_of_length, piece_of};

use crate::token::Sign;

/// What a piece of a text is.
#[derive(Clone, Copy, Debug, PartialEq, Eq)]
pub(crate) enum Shape {
    /// White space or a comment.
    Gap,
    Word,
    Integer,
    Real,
    Text,
    Sign(Sign),
}

/// The piece at the front of a text.
#[derive(Clone, Copy, Debug, PartialEq, Eq)]
pub(crate) struct Piece {
    pub(crate) shape: Shape,
    pub(crate) length: usize,
}

/// How many digits are at the front.
pub(crate) fn digits_len(text: &[u8]) -> usize
    ensures exact { result ≡ prefix_len is_ascii_digit text.now }
    ensures within { result ≤ length text.now }
{
    text.iter().take_while(|b| b.is_ascii_digit()).count()
}

/// How much white space is at the front.
fn space_len(text: &[u8]) -> usize
    ensures exact { result ≡ prefix_len is_space text.now }
    ensures within { result ≤ length text.now }
{
    text.iter()
        .take_while(|b| **b == b' ' || **b == b'\t' || (**b == b'\r' || **b == b'\n'))
        .count()
}

/// How many bytes are before the first line feed.
fn line_len(text: &[u8]) -> usize
    ensures exact { result ≡ prefix_len is_comment_byte text.now }
    ensures within { result ≤ length text.now }
{
    text.iter().take_while(|b| **b != b'\n').count()
}

/// How long the comment at the front is, up to the line feed.
#[tactic(auto, unfolding(crate::specs::Pieces::comment_len))]
fn comment_len(text: &[u8]) -> usize
    ensures exact { result ≡ comment_len text.now }
    ensures within { result ≤ length text.now }
{
    if text.starts_with(b"//") {
        line_len(text)
    } else {
        0
    }
}

/// How many bytes of a word are at the front.
fn word_bytes_len(text: &[u8]) -> usize
    ensures exact { result ≡ prefix_len is_word_byte text.now }
    ensures within { result ≤ length text.now }
{
    text.iter()
        .take_while(|b| b.is_ascii_alphanumeric() || **b == b'_')
        .count()
}

/// How long the word at the front is.
#[tactic(auto, unfolding(crate::specs::Pieces::word_len))]
fn word_len(text: &[u8]) -> usize
    ensures exact { result ≡ word_len text.now }
    ensures within { result ≤ length text.now }
{
    match text.first() {
        Some(b) if b.is_ascii_alphabetic() => word_bytes_len(text),
        _ => 0,
    }
}

/// How long the integer at the front is.
#[tactic(auto, unfolding(crate::specs::Pieces::integer_len))]
fn integer_len(text: &[u8]) -> usize
    ensures exact { result ≡ integer_len text.now }
    ensures within { result ≤ length text.now }
{
    match text.first() {
        Some(b'0') => 1,
        _ => digits_len(text),
    }
}

/// How long the plus or minus at the front is.
#[tactic(auto, unfolding(crate::specs::Pieces::sign_len))]
fn sign_len(text: &[u8]) -> usize
    ensures exact { result ≡ sign_len text.now }
    ensures within { result ≤ length text.now }
{
    match text.first() {
        Some(b'+' | b'-') => 1,
        _ => 0,
    }
}

/// How long the exponent at the front is.
#[tactic(auto, unfolding(crate::specs::Pieces::exponent_len))]
fn exponent_len(text: &[u8]) -> usize
    ensures exact { result ≡ exponent_len text.now }
    ensures within { result ≤ length text.now }
{
    let [b'e' | b'E', rest @ ..] = text else {
        return 0;
    };
    let sign = sign_len(rest);
    let digits = digits_len(&rest[sign..]);
    if digits == 0 { 0 } else { 1 + sign + digits }
}

/// How long the point and its digits at the front are, after so many digits.
#[tactic(auto, unfolding(crate::specs::Pieces::fraction_len))]
fn fraction_len(whole: usize, text: &[u8]) -> usize
    ensures exact { result ≡ fraction_len whole text.now }
    ensures within { result ≤ length text.now }
{
    let [b'.', rest @ ..] = text else {
        return 0;
    };
    let digits = digits_len(rest);
    if whole == 0 && digits == 0 {
        0
    } else {
        1 + digits
    }
}

/// How long the real at the front is.
#[tactic(auto, unfolding(crate::specs::Pieces::real_len))]
pub(crate) fn real_len(text: &[u8]) -> usize
    ensures exact { result ≡ real_len text.now }
    ensures within { result ≤ length text.now }
{
    let whole = digits_len(text);
    let fraction = fraction_len(whole, &text[whole..]);
    let exponent = exponent_len(&text[whole + fraction..]);
    if fraction > 0 || (whole > 0 && exponent > 0) {
        whole + fraction + exponent
    } else {
        0
    }
}

/// How many bytes are before the first quote or line feed.
fn string_bytes_len(text: &[u8]) -> usize
    ensures exact { result ≡ prefix_len is_string_byte text.now }
    ensures within { result ≤ length text.now }
{
    text.iter()
        .take_while(|b| !(**b == b'"' || **b == b'\n'))
        .count()
}

/// How long the string at the front is, with its quotes.
#[tactic(auto, unfolding(crate::specs::Pieces::string_len))]
fn string_len(text: &[u8]) -> usize
    ensures exact { result ≡ string_len text.now }
    ensures within { result ≤ length text.now }
{
    let [b'"', rest @ ..] = text else {
        return 0;
    };
    let inside = string_bytes_len(rest);
    if rest[inside..].starts_with(b"\"") {
        inside + 2
    } else {
        0
    }
}

/// The sign that one byte is.
#[tactic(auto, unfolding(crate::specs::Pieces::sign_of_byte))]
fn sign_of_byte(byte: u8) -> Option<Sign>
    ensures { result ≡ sign_of_byte byte }
{
    match byte {
        b';' => Some(Sign::Semicolon),
        b',' => Some(Sign::Comma),
        b'(' => Some(Sign::LeftParenthesis),
        b')' => Some(Sign::RightParenthesis),
        b'[' => Some(Sign::LeftBracket),
        b']' => Some(Sign::RightBracket),
        b'{' => Some(Sign::LeftBrace),
        b'}' => Some(Sign::RightBrace),
        b'+' => Some(Sign::Plus),
        b'-' => Some(Sign::Minus),
        b'*' => Some(Sign::Star),
        b'/' => Some(Sign::Slash),
        b'^' => Some(Sign::Caret),
        _ => None,
    }
}

/// The sign at the front.
#[tactic(auto, unfolding(crate::specs::Pieces::sign_piece))]
fn sign_piece(text: &[u8]) -> Option<Piece>
    ensures { result ≡ sign_piece text.now }
{
    if text.starts_with(b"->") {
        return Some(Piece {
            shape: Shape::Sign(Sign::Arrow),
            length: 2,
        });
    }
    if text.starts_with(b"==") {
        return Some(Piece {
            shape: Shape::Sign(Sign::Equals),
            length: 2,
        });
    }
    let sign = sign_of_byte(*text.first()?)?;
    Some(Piece {
        shape: Shape::Sign(sign),
        length: 1,
    })
}

/// A piece of that length, unless it is 0.
fn piece_of_length(shape: Shape, length: usize) -> Option<Piece>
    ensures { result ≡ piece_of_length shape length }
{
    if length > 0 {
        Some(Piece { shape, length })
    } else {
        None
    }
}

/// The piece at the front of a text, given how long the real there is.
#[tactic(auto, unfolding(crate::specs::Pieces::piece_of))]
pub(crate) fn piece_of(text: &[u8], real: usize) -> Option<Piece>
    requires { real ≡ real_len text.now }
    ensures { result ≡ piece_of text.now }
{
    piece_of_length(Shape::Gap, space_len(text))
        .or(piece_of_length(Shape::Gap, comment_len(text)))
        .or(piece_of_length(Shape::Word, word_len(text)))
        .or(piece_of_length(Shape::Real, real))
        .or(piece_of_length(Shape::Integer, integer_len(text)))
        .or(piece_of_length(Shape::Text, string_len(text)))
        .or(sign_piece(text))
}
