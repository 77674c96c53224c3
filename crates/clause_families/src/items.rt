//! Items by the numbers of what they speak of, and claims of the order of ions.

ghost use Rattle.std.specs.Prelude.{◌≡◌};
ghost use Rattle.step_vars.specs.Items.{at_item, ord_item, use_item, leave_item, swap_item, act_item, done_item, goal_item, nearer as nearer_of, nearer_to as nearer_to_of};

use qc_base::{End, Ion, OpId, PlaceId};
use step_vars::{Claim, Item};

/// The ion is at the place at the time.
pub fn at(ion: u32, place: u32, time: u32) -> Item
    ensures { result ≡ at_item ion place time }
{
    Item::At {
        ion: Ion(ion),
        place: PlaceId(place),
        time,
    }
}

/// The first ion is nearer to end a than the second at the time.
pub fn ord(first: u32, second: u32, time: u32) -> Item
    ensures { result ≡ ord_item first second time }
{
    Item::Ord {
        first: Ion(first),
        second: Ion(second),
        time,
    }
}

/// The channel is used in the step.
pub fn uses(channel: u32, step: u32) -> Item
    ensures { result ≡ use_item channel step }
{
    Item::Use { channel, step }
}

/// The ion passes through the channel in the step.
pub fn leaves(ion: u32, channel: u32, step: u32) -> Item
    ensures { result ≡ leave_item ion channel step }
{
    Item::Leave {
        ion: Ion(ion),
        channel,
        step,
    }
}

/// The two ions are swapped in the zone in the step.
pub fn swap(first: u32, second: u32, zone: u32, step: u32) -> Item
    ensures { result ≡ swap_item first second zone step }
{
    Item::Swap {
        first: Ion(first),
        second: Ion(second),
        zone: PlaceId(zone),
        step,
    }
}

/// The operation is performed in the zone in the step.
pub fn act(op: u32, zone: u32, step: u32) -> Item
    ensures { result ≡ act_item op zone step }
{
    Item::Act {
        op: OpId(op),
        zone: PlaceId(zone),
        step,
    }
}

/// The operation is done at the time.
pub fn done(op: u32, time: u32) -> Item
    ensures { result ≡ done_item op time }
{
    Item::Done { op: OpId(op), time }
}

/// Of two ions, the first is nearer to end a.
pub fn nearer(first: u32, second: u32, time: u32) -> Claim
    ensures { result ≡ nearer_of first second time }
{
    if first < second {
        Claim::so(ord(first, second, time))
    } else {
        Claim::not_so(ord(second, first, time))
    }
}

/// Of two ions, the first is nearer to that end.
pub fn nearer_to(end: End, first: u32, second: u32, time: u32) -> Claim
    ensures { result ≡ nearer_to_of end first second time }
{
    match end {
        End::A => nearer(first, second, time),
        End::B => nearer(second, first, time),
    }
}
