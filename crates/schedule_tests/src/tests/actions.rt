//! Actions by the numbers of places and operations.

use qc_base::{End, JunctionId, OpId, PlaceId};
use step_rules::Action;

/// So many ions leave an end of a zone.
pub fn split(zone: u32, end: End, count: u32) -> Action {
    Action::Split {
        zone: PlaceId(zone),
        end,
        count,
    }
}

/// The ions of the slot at an end of a zone come into it.
pub fn merge(zone: u32, end: End) -> Action {
    Action::Merge {
        zone: PlaceId(zone),
        end,
    }
}

/// Ions go from a slot to the next one of a segment.
pub fn goes(from: u32, to: u32) -> Action {
    Action::Move {
        from: PlaceId(from),
        to: PlaceId(to),
    }
}

/// Ions go from a slot to another one across the first junction.
pub fn cross(from: u32, to: u32) -> Action {
    Action::Cross {
        junction: JunctionId(0),
        from: PlaceId(from),
        to: PlaceId(to),
    }
}

/// The ion of that index changes places with the next one of the zone.
pub fn swap(zone: u32, index: u32) -> Action {
    Action::Swap {
        zone: PlaceId(zone),
        index,
    }
}

/// The operation of that number is performed in a place.
pub fn op(place: u32, number: u32) -> Action {
    Action::Op {
        zone: PlaceId(place),
        op: OpId(number),
    }
}
