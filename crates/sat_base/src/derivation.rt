//! What resolution and derivations say of all assignments.

ghost use Rattle.std.specs.Prelude.{ℕ, ◌≤◌, List, [], ◌++◌, Contains, AllPairs};
ghost use Rattle.sat_base.specs.Literal.{Literal};
ghost use Rattle.sat_base.specs.Clauses.{IsSubclause, SameLiterals, NameOnly};
ghost use Rattle.sat_base.specs.Truth.{Valuation, SatisfiesClause, Satisfies, HasNoModel};
ghost use Rattle.sat_base.specs.Resolution.{ResolveTo};
ghost use Rattle.sat_base.specs.Derivation.{Line, clauses_of, AreDerived, AreGood, AnyRefutes};
ghost use Rattle.sat_base.specs.Fresh.{IsFreshOver, Parts, AreFresh};

/// What clauses resolve to is true wherever they all are.
pub fn resolvent_follows()
    ensures { (hints : List (List Literal)) (clause : List Literal) → ResolveTo hints clause
        → (values : Valuation) → Satisfies values hints → SatisfiesClause values clause }
{}

/// Clauses in one order resolve to one set of literals at most.
pub fn one_resolvent()
    ensures { (hints : List (List Literal)) (clause other : List Literal)
        → ResolveTo hints clause → ResolveTo hints other → SameLiterals clause other }
{}

/// Derived lines are true wherever the formula is.
pub fn derived_lines_follow()
    ensures { (formula : List (List Literal)) (lines : List Line) → AreDerived formula lines
        → (values : Valuation) → Satisfies values formula → Satisfies values (formula ++ clauses_of lines) }
{}

/// Where all lines are good, or derived, and one refutes the goal, no assignment satisfies the formula and makes
/// the goal true.
pub fn refuted_goal_has_no_model()
    ensures good { (vars : ℕ) (formula : List (List Literal)) (lines : List Line) (goal : Literal)
        → AreGood vars formula lines → AnyRefutes goal (clauses_of lines) → HasNoModel formula goal }
    ensures derived { (formula : List (List Literal)) (lines : List Line) (goal : Literal)
        → AreDerived formula lines → AnyRefutes goal (clauses_of lines) → HasNoModel formula goal }
{}

/// Good lines are derived; and where the formula names only so many variables, derived lines are good.
pub fn good_lines_are_derived()
    ensures derived { (vars : ℕ) (formula : List (List Literal)) (lines : List Line)
        → AreGood vars formula lines → AreDerived formula lines }
    ensures good { (vars : ℕ) (formula : List (List Literal)) (lines : List Line)
        → NameOnly (λ var. (1 ≤ var) × (var ≤ vars)) formula → AreDerived formula lines
        → AreGood vars formula lines }
{}

/// A fresh line contains none of the clauses that it is fresh over.
pub fn fresh_lines_are_new()
    ensures { (clauses : List (List Literal)) (line clause : List Literal)
        → IsFreshOver clauses line → Contains clauses clause → IsSubclause clause line → ⊥ }
{}

/// No two of a list of fresh lines have the same literals.
pub fn fresh_lines_differ()
    ensures { (parts : Parts) (last : ℕ) (lines : List Line) → AreFresh parts last [] lines
        → AllPairs (λ line other. SameLiterals line.clause other.clause → ⊥) lines }
{}
