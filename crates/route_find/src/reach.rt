//! How far a place is from another.

/// A place from which a walk leads to the target: how many channels a shortest walk has, and the first channel of
/// one, none at the target.
#[derive(Clone, Copy, Debug, PartialEq, Eq)]
pub struct Reach {
    pub distance: u32,
    pub next: Option<u32>,
}
