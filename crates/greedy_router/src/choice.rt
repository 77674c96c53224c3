//! The nearest of several zones.

ghost use Rattle.std.specs.Prelude.{◌≡◌, ◌⊎◌, Some};

use qc_base::PlaceId;

/// A zone, and how far it is.
#[derive(Clone, Copy, Debug, PartialEq, Eq)]
pub(crate) struct Choice {
    pub(crate) zone: PlaceId,
    pub(crate) length: u64,
}

/// The nearer of the best so far and the next; the best so far where both are as near.
pub(crate) fn nearer(best: Option<Choice>, next: Choice) -> Choice
    ensures { (best ≡ Some result) ⊎ (result ≡ next) }
{
    match best {
        Some(choice) => {
            if next.length < choice.length {
                next
            } else {
                choice
            }
        }
        None => next,
    }
}
