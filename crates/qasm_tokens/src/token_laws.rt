//! What the definition of tokens says.

ghost use Rattle.std.specs.Prelude.{◌≡◌, ℕ, List, Some, MatchOption, Result};
ghost use Rattle.qasm_tokens.specs.declared.token.PlacedToken.{PlacedToken};
ghost use Rattle.qasm_tokens.specs.declared.token_fault.TokenFault.{TokenFault};
ghost use Rattle.qasm_tokens.specs.declared.piece.Piece.{Piece};
ghost use Rattle.qasm_tokens.specs.Pieces.{piece_of};
ghost use Rattle.qasm_tokens.specs.TokenForms.{IsLongest, HasNoForm};
ghost use Rattle.qasm_tokens.specs.Tokens.{tokens_of};
ghost use Rattle.qasm_tokens.specs.TokenReading.{ReadsAs};

/// The piece at the front of a text is the longest match of the forms, there is one at most, and without one no
/// form is there.
pub fn longest_match()
    ensures found { (text : List ℕ) → MatchOption (piece_of text) (HasNoForm text) (λ piece. IsLongest text piece) }
    ensures only { (text : List ℕ) (piece : Piece) → IsLongest text piece → piece_of text ≡ Some piece }
{}

/// Every text reads as its tokens or its leftmost fault, and as nothing else.
pub fn one_reading()
    ensures reads { (text : List ℕ) → ReadsAs 0 0 text (tokens_of text) }
    ensures only { (text : List ℕ) (answer : Result (List PlacedToken) TokenFault) → ReadsAs 0 0 text answer
        → answer ≡ tokens_of text }
{}
