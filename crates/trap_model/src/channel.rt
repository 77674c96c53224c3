//! The channels through which ions pass from place to place.

ghost use Rattle.std.specs.Prelude.{◌≡◌};
ghost use Rattle.trap_model.specs.Channels.{is_split, is_merge, is_move, is_through, is_cross};

use qc_base::{End, JunctionId, PlaceId};
use trap_parts::same_end;

/// What passes: a part of a zone's ions, a whole chain from slot to slot, or a chain into a zone.
#[derive(Clone, Copy, Debug, PartialEq, Eq)]
pub enum Kind {
    Split,
    Move,
    Cross,
    Merge,
}

/// A directed path from an end of one place to an end of another. A crossing has its junction.
#[derive(Clone, Copy, Debug, PartialEq, Eq)]
pub struct Channel {
    pub kind: Kind,
    pub from: PlaceId,
    pub from_end: End,
    pub to: PlaceId,
    pub to_end: End,
    pub junction: Option<JunctionId>,
}

impl Channel {
    // Whether it splits off by that end of the zone.
    pub(crate) fn is_split(&self, zone: u32, end: End) -> bool
        ensures { result ≡ is_split zone end self.now }
    {
        matches!(self.kind, Kind::Split) && zone == self.from.0 && same_end(end, self.from_end)
    }

    // Whether it merges into the zone by that end.
    pub(crate) fn is_merge(&self, zone: u32, end: End) -> bool
        ensures { result ≡ is_merge zone end self.now }
    {
        matches!(self.kind, Kind::Merge) && zone == self.to.0 && same_end(end, self.to_end)
    }

    // Whether it moves from slot to slot.
    pub(crate) fn is_move(&self, from: u32, to: u32) -> bool
        ensures { result ≡ is_move from to self.now }
    {
        matches!(self.kind, Kind::Move) && from == self.from.0 && to == self.to.0
    }

    // Whether it passes the junction.
    pub(crate) fn is_through(&self, junction: u32) -> bool
        ensures { result ≡ is_through junction self.now }
    {
        self.junction.is_some_and(|other| junction == other.0)
    }

    // Whether it crosses the junction from slot to slot.
    pub(crate) fn is_cross(&self, junction: u32, from: u32, to: u32) -> bool
        ensures { result ≡ is_cross junction from to self.now }
    {
        self.is_through(junction) && from == self.from.0 && to == self.to.0
    }
}
