//! What the passing rule says of all lists of ions.

ghost use Rattle.std.specs.Prelude.{◌≡◌, ◌≢◌, ℕ, ◌+◌, ◌<◌, ◌≤◌, List, [], ◌++◌, length, reverse, IsPermutation};
ghost use Rattle.qc_base.specs.declared.ids.End.{End};
ghost use Rattle.qc_base.specs.declared.ids.Ion.{Ion};
ghost use Rattle.ion_chain.specs.declared.transfer.Transfer.{Transfer};
ghost use Rattle.ion_chain.specs.Passing.{outward, leaving, left, joined};
ghost use Rattle.ion_chain.specs.Transfer.{list_at, after_transfer, AreApart};

/// The source, read towards the exit, loses its last ions; their reverse comes to the end of the
/// target, read towards the entrance.
pub fn passing_rule()
    ensures so_many { (end : End) (count : ℕ) (source : List Ion) → count ≤ length source
        → length (leaving end count source) ≡ count }
    ensures loses { (end : End) (count : ℕ) (source : List Ion)
        → outward end (left end count source) ++ leaving end count source ≡ outward end source }
    ensures gets { (into : End) (passed target : List Ion)
        → outward into (joined into passed target) ≡ outward into target ++ reverse passed }
{}

/// Passing ions and then as many back through the same ends leaves both lists as they were.
pub fn passing_back()
    ensures source { (end into : End) (count : ℕ) (source target : List Ion) → count ≤ length source
        → joined end (leaving into count (joined into (leaving end count source) target))
        (left end count source) ≡ source }
    ensures target { (end into : End) (count : ℕ) (source target : List Ion) → count ≤ length source
        → left into count (joined into (leaving end count source) target) ≡ target }
{}

/// A chain is never reflected: ions that go into an empty place by one end leave it by the other
/// as they came, and by the same end in reverse.
pub fn passing_through()
    ensures straight { (into out : End) (ions : List Ion) → into ≢ out
        → leaving out (length ions) (joined into ions []) ≡ ions }
    ensures back { (into : End) (ions : List Ion)
        → leaving into (length ions) (joined into ions []) ≡ reverse ions }
{}

/// Passing ions and then further ones is passing all of them at once.
pub fn passing_in_parts()
    ensures source { (end : End) (first later : ℕ) (source : List Ion)
        → left end later (left end first source) ≡ left end (first + later) source }
    ensures target { (end into : End) (first later : ℕ) (source target : List Ion)
        → joined into (leaving end later (left end first source))
        (joined into (leaving end first source) target)
        ≡ joined into (leaving end (first + later) source) target }
{}

/// No ion is lost and none is made.
pub fn nothing_lost()
    ensures { (end into : End) (count : ℕ) (source target : List Ion)
        → IsPermutation (source ++ target)
        (left end count source ++ joined into (leaving end count source) target) }
{}

/// A transfer changes the lists of its two places and of no other.
pub fn transfer_between()
    ensures source { (lists : List (List Ion)) (t : Transfer) → t.from.0 < length lists → t.from.0 ≢ t.to.0
        → list_at (after_transfer lists t) t.from.0 ≡ left t.from_end t.count (list_at lists t.from.0) }
    ensures target { (lists : List (List Ion)) (t : Transfer) → t.to.0 < length lists
        → list_at (after_transfer lists t) t.to.0
        ≡ joined t.to_end (leaving t.from_end t.count (list_at lists t.from.0)) (list_at lists t.to.0) }
    ensures elsewhere { (lists : List (List Ion)) (t : Transfer) (place : ℕ) → place ≢ t.from.0 → place ≢ t.to.0
        → list_at (after_transfer lists t) place ≡ list_at lists place }
    ensures places { (lists : List (List Ion)) (t : Transfer) → length (after_transfer lists t) ≡ length lists }
{}

/// Of two transfers that share no place, it doesn't matter which comes first.
pub fn transfers_in_either_order()
    ensures { (lists : List (List Ion)) (first second : Transfer) → AreApart first second
        → after_transfer (after_transfer lists first) second
        ≡ after_transfer (after_transfer lists second) first }
{}
