//! What the head of a certificate says.

/// What the lines of a certificate refute.
#[derive(Clone, Copy, Debug, PartialEq, Eq)]
pub enum Bound {
    /// The goal of this bound.
    Refutes(u32),
    /// Nothing, since there is nothing to refute.
    Nothing,
    /// Nothing yet: the goal of this bound is in hand.
    Open(u32),
}

/// The first three lines of a certificate.
#[derive(Clone, Copy, Debug, PartialEq, Eq)]
pub struct Head {
    /// The number of the encoding of schedules in clauses.
    pub encoding: u32,
    /// What the lines refute.
    pub bound: Bound,
}
