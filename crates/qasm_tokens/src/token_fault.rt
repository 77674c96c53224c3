//! Why a text has no tokens.

/// Why a text has no tokens: the first fault from the left, and the place of the byte at which it is.
#[derive(Clone, Copy, Debug, PartialEq, Eq)]
pub enum TokenFault {
    /// No token begins there, or the upper-case word isn't known.
    Lex { at: u64 },
    /// A word, a real or a string has more than 64 bytes.
    LongWord { at: u64 },
    /// An integer is above 2^64 - 1.
    BigNumber { at: u64 },
    /// A parenthesis after which more than 100 are open.
    Deep { at: u64 },
}
