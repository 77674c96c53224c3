//! What variables say, in short.

use qc_base::{Ion, OpId, PlaceId};
use step_vars::Item;

/// The ion is at the place.
pub fn at(ion: u32, place: u32, time: u32) -> Item {
    Item::At {
        ion: Ion(ion),
        place: PlaceId(place),
        time,
    }
}

/// The first ion is nearer to end a than the second.
pub fn ord(first: u32, second: u32, time: u32) -> Item {
    Item::Ord {
        first: Ion(first),
        second: Ion(second),
        time,
    }
}

/// The two ions change places in the zone.
pub fn swapped(first: u32, second: u32, zone: u32, step: u32) -> Item {
    Item::Swap {
        first: Ion(first),
        second: Ion(second),
        zone: PlaceId(zone),
        step,
    }
}

/// The zone performs the operation.
pub fn performed(op: u32, zone: u32, step: u32) -> Item {
    Item::Act {
        op: OpId(op),
        zone: PlaceId(zone),
        step,
    }
}

/// The operation was performed.
pub fn done(op: u32, time: u32) -> Item {
    Item::Done { op: OpId(op), time }
}

/// The ion passes through the channel.
pub fn leaves(ion: u32, channel: u32, step: u32) -> Item {
    Item::Leave {
        ion: Ion(ion),
        channel,
        step,
    }
}

/// Ions pass through the channel.
pub fn uses(channel: u32, step: u32) -> Item {
    Item::Use { channel, step }
}
