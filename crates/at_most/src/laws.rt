//! What the definitions of the encodings say of all lists of literals.

ghost use Rattle.std.specs.Prelude.{◌≡◌, ℕ, ◌+◌, ◌/◌, ◌<◌, ◌≤◌, List, [], length, min, take, drop};
ghost use Rattle.sat_base.specs.Literal.{Literal};
ghost use Rattle.at_most.specs.AtMost.{AlwaysLimits};
ghost use Rattle.at_most.specs.Pairwise.{pairwise};
ghost use Rattle.at_most.specs.Sequential.{sequential, sequential_count};
ghost use Rattle.at_most.specs.Totalizer.{joined, tree_of, totalizer, totalizer_count};

/// The clauses of each encoding allow at most k true literals, and nothing else.
pub fn encodings_limit()
    ensures pairwise { AlwaysLimits (λ n k. 0) (λ literals k next. pairwise literals k) }
    ensures sequential { AlwaysLimits sequential_count sequential }
    ensures totalizer { AlwaysLimits totalizer_count totalizer }
{}

/// The totalizer's tree by its halves: one literal is its own output; of more, the first half is built, then
/// the rest, and then both are put together.
pub fn tree_by_halves()
    ensures one { (literals : List Literal) (k next : ℕ) → length literals ≤ 1
        → tree_of k literals next ≡ record { outputs = literals; clauses = []; next = next } }
    ensures more { (literals : List Literal) (k next : ℕ) → 1 < length literals
        → let left = tree_of k (take (length literals / 2) literals) next in
        let right = tree_of k (drop (length literals / 2) literals) left.next in
        tree_of k literals next ≡ joined left right (min (length literals) (k + 1)) }
{}
