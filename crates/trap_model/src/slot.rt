//! Slots.

/// A slot of a segment, by the numbers of both.
#[derive(Clone, Copy, Debug, PartialEq, Eq)]
pub struct Slot {
    pub segment: usize,
    pub index: u32,
}
