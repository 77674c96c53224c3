//! Laws of the grammar.

ghost use Rattle.std.specs.Prelude.{◌≡◌, ℕ, List, Option, None, Result};
ghost use Rattle.qasm_read.specs.declared.fault.QasmFault.{QasmFault};
ghost use Rattle.qasm_read.specs.declared.statement.Placed.{Placed};
ghost use Rattle.qasm_read.specs.declared.statement.Statement.{Statement};
ghost use Rattle.qasm_tokens.specs.declared.token.PlacedToken.{PlacedToken};
ghost use Rattle.qasm_read.specs.Grammar.{a_statement, an_expression};
ghost use Rattle.qasm_read.specs.Read.{IsReading};
ghost use Rattle.qasm_read.specs.Program.{Answers, Begins};

/// No statement begins another, so tokens split into statements in one way. Where none of its expressions is
/// large, it is one statement, too.
pub fn one_statement_begins()
    ensures { (s t : Statement) (m n : Option ℕ) (placed a b : List PlacedToken)
        (p : Begins (a_statement an_expression s) m placed a) (q : Begins (a_statement an_expression t) n placed b) →
        (p.front ≡ q.front) × (a ≡ b) × (m ≡ n) × (m ≡ None → s ≡ t) }
{}

/// Tokens have one answer.
pub fn one_answer()
    ensures { (placed : List PlacedToken) (x y : Result (List Placed) QasmFault) → Answers placed x
        → Answers placed y → x ≡ y }
{}

/// A text has one reading.
pub fn one_reading()
    ensures { (bytes : List ℕ) (a b : Result (List Placed) QasmFault) → IsReading bytes a → IsReading bytes b → a ≡ b }
{}
