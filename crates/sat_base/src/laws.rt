//! What the definitions say of all assignments and clauses.

ghost use Rattle.std.specs.Prelude.{◌≡◌, ◌↔◌, IsTrue, not, List};
ghost use Rattle.sat_base.specs.Literal.{Literal, negated};
ghost use Rattle.sat_base.specs.Clauses.{Has, IsSubclause, NameOnly};
ghost use Rattle.sat_base.specs.Truth.{Valuation, is_true, SatisfiesClause, Satisfies};

/// A clause is satisfied where one of its literals is true; of a literal and its negation one is true.
pub fn satisfied_by_a_literal()
    ensures some { (values : Valuation) (clause : List Literal) → SatisfiesClause values clause
        ↔ ((literal : Literal) × (Has clause literal × IsTrue (is_true values literal))) }
    ensures negated { (values : Valuation) (literal : Literal)
        → is_true values (negated literal) ≡ not (is_true values literal) }
{}

/// What satisfies a clause satisfies each clause that has its literals.
pub fn satisfied_by_a_part()
    ensures { (values : Valuation) (part whole : List Literal)
        → IsSubclause part whole → SatisfiesClause values part → SatisfiesClause values whole }
{}

/// Only the variables that the clauses name count.
pub fn other_variables_are_free()
    ensures { (values other : Valuation) (clauses : List (List Literal))
        → NameOnly (λ var. values var ≡ other var) clauses
        → Satisfies values clauses → Satisfies other clauses }
{}
