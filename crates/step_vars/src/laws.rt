//! What numbers of variables keep, of all numberings.

ghost use Rattle.std.specs.Prelude.{◌≡◌, ◌≢◌, ◌+◌, ◌<◌, ◌≤◌, ℕ, Some, None, IsSome};
ghost use Rattle.std.specs.List.{Contains};
ghost use Rattle.step_vars.specs.declared.item.Item.{Item};
ghost use Rattle.step_rules.specs.Setting.{SettingValue};
ghost use Rattle.step_vars.specs.declared.encoding.Encoding.{Encoding as AnEncoding};
ghost use Rattle.step_vars.specs.Encoding.{helper_count, place_bounds, activity_bounds};
ghost use Rattle.step_vars.specs.Items.{time_of, at_item, ord_item, use_item, leave_item, swap_item, act_item, done_item, goal_item};
ghost use Rattle.step_vars.specs.Lists.{cell};
ghost use Rattle.step_vars.specs.Numbering.{Numbering, number_of, before, sizes_at, first_helper};
ghost use Rattle.step_vars.specs.Tables.{AreFound};
ghost use Rattle.step_vars.specs.ItemOf.{item_of};

/// Numbers and items invert each other; so two items never have one number.
pub fn numbers_differ()
    ensures item { (n : Numbering) (item : Item) (var : ℕ)
        → number_of n item ≡ Some var → item_of n var ≡ Some item }
    ensures number { (n : Numbering) (item : Item) (var : ℕ)
        → AreFound n → item_of n var ≡ Some item → number_of n item ≡ Some var }
    ensures once { (n : Numbering) (first second : Item) (var : ℕ)
        → number_of n first ≡ Some var → number_of n second ≡ Some var → first ≡ second }
{}

/// A helper's number is no item's number.
pub fn helpers_are_no_items()
    ensures number { (n : Numbering) (t k : ℕ) (item : Item)
        → k < (sizes_at n t).helpers → number_of n item ≢ Some (first_helper n t + k) }
    ensures item { (n : Numbering) (t k : ℕ)
        → k < (sizes_at n t).helpers → item_of n (first_helper n t + k) ≡ None }
{}

/// The numbers of a part come after those of the parts before it.
pub fn parts_are_in_order()
    ensures from_1 { (n : Numbering) (item : Item) (var : ℕ) → number_of n item ≡ Some var → 1 ≤ var }
    ensures within { (n : Numbering) (item : Item) (var t : ℕ)
        → number_of n item ≡ Some var → time_of item ≤ t → var ≤ before n (t + 1) }
    ensures above { (n : Numbering) (item : Item) (var t : ℕ)
        → number_of n item ≡ Some var → t ≤ time_of item → before n t < var }
    ensures grows { (n : Numbering) (s t : ℕ) → s ≤ t → before n s ≤ before n t }
{}

/// The helpers of a part come after all its items but the goal, and after the parts before it.
pub fn helpers_are_in_their_part()
    ensures above { (n : Numbering) (t : ℕ) → before n t < first_helper n t }
    ensures within { (n : Numbering) (t : ℕ)
        → first_helper n t + (sizes_at n t).helpers ≤ before n (t + 1) }
    ensures after { (n : Numbering) (item : Item) (var t : ℕ)
        → number_of n item ≡ Some var → time_of item ≤ t → item ≢ goal_item t → var < first_helper n t }
{}

/// The items that have numbers.
pub fn items_have_numbers()
    ensures at { (n : Numbering) (i p t : ℕ)
        → i < n.ions → p < n.places → IsSome (number_of n (at_item i p t)) }
    ensures ord { (n : Numbering) (i j t : ℕ)
        → Contains n.pairs (cell i j) → IsSome (number_of n (ord_item i j t)) }
    ensures uses { (n : Numbering) (c t : ℕ)
        → c < n.channels → 0 < t → IsSome (number_of n (use_item c t)) }
    ensures leave { (n : Numbering) (i c t : ℕ)
        → i < n.ions → c < n.channels → 0 < t → IsSome (number_of n (leave_item i c t)) }
    ensures swap { (n : Numbering) (i j z t : ℕ)
        → Contains n.pairs (cell i j) → z < n.zones → 0 < t → IsSome (number_of n (swap_item i j z t)) }
    ensures act { (n : Numbering) (g z t : ℕ)
        → Contains n.acts (cell g z) → 0 < t → IsSome (number_of n (act_item g z t)) }
    ensures done { (n : Numbering) (g t : ℕ)
        → Contains n.ops (cell g 0) → IsSome (number_of n (done_item g t)) }
    ensures goal { (n : Numbering) (t : ℕ) → IsSome (number_of n (goal_item t)) }
{}

/// Each step has as many helpers as the first, for the lists of what places hold and for those of what happens
/// at them.
pub fn steps_have_equal_helpers()
    ensures places { (setting : SettingValue) (encoding : AnEncoding) (t : ℕ)
        → helper_count encoding (place_bounds setting t) ≡ helper_count encoding (place_bounds setting 1) }
    ensures activities { (setting : SettingValue) (encoding : AnEncoding) (t : ℕ)
        → helper_count encoding (activity_bounds setting t)
        ≡ helper_count encoding (activity_bounds setting 1) }
{}
