//! Where the slots lie, and the channels between the places.

ghost use Rattle.std.specs.Prelude.{◌≡◌, ◌+◌, ◌<◌, ◌^◌, ◌++◌, ◌∷◌, [], length, map, IfOk, OnOk, None};
ghost use Rattle.std.specs.List.{flat_map, range_with_len};
ghost use Rattle.trap_parts.specs.Parts.{TrapValue, lists};
ghost use Rattle.trap_model.specs.Trap.{slot, slots_from};
ghost use Rattle.trap_parts.specs.Joins.{links_of, firsts_from, slot_end, arms_of};
ghost use Rattle.trap_model.specs.Channels.{channel, split, merge, dock_channels, move_channels, moves_from, cross_channels, crossings_of, channels_of};
ghost use Rattle.trap_parts.specs.Build.{IsTrap};

use crate::channel::{Channel, Kind};
use crate::slot::Slot;
use qc_base::{End, JunctionId, NoMemory, PlaceId};
use std::alloc::Global;
use trap_parts::{Link, SlotEnd, TrapParts};

// The slots in the order of their places.
pub(crate) fn find_slots(alloc: Global, parts: &TrapParts) -> Result<Vec<Slot>, NoMemory>
    ensures { IfOk result (λ slots. slots.items ≡ slots_from 0 parts.now.segments.items) }
{
    let mut slots = Vec::new(alloc);
    for (k, segment) in parts.segments.iter().enumerate() {
        push_slots(k, segment.slots, &mut slots)?;
    }
    Ok(slots)
}

// The place of the first slot of each segment.
pub(crate) fn find_firsts(alloc: Global, parts: &TrapParts) -> Result<Vec<u32>, NoMemory>
    requires { IsTrap (lists parts.now) }
    ensures { IfOk result
        (λ firsts. firsts.items ≡ firsts_from (length parts.now.zones.items) parts.now.segments.items) }
{
    let mut firsts = Vec::new(alloc);
    let mut place = parts.zones.len() as u32;
    for segment in &parts.segments {
        firsts.push(place)?;
        place += segment.slots;
    }
    Ok(firsts)
}

// The slot's end that is an end of the segment.
fn slot_end(parts: &TrapParts, firsts: &[u32], segment: usize, end: End) -> SlotEnd
    requires trap { IsTrap (lists parts.now) }
    requires firsts { firsts.now ≡ firsts_from (length parts.now.zones.items) parts.now.segments.items }
    requires there { segment < length parts.now.segments.items }
    ensures { result ≡ slot_end (lists parts.now) segment end }
{
    let first = firsts[segment];
    let slot = match end {
        End::A => first,
        End::B => first + parts.segments[segment].slots - 1,
    };
    SlotEnd { slot, end }
}

// The arms of a junction.
fn find_arms(
    alloc: Global,
    parts: &TrapParts,
    firsts: &[u32],
    links: &[Link],
    junction: usize,
) -> Result<Vec<SlotEnd>, NoMemory>
    requires trap { IsTrap (lists parts.now) }
    requires firsts { firsts.now ≡ firsts_from (length parts.now.zones.items) parts.now.segments.items }
    requires links { links.now ≡ links_of (lists parts.now) }
    ensures { IfOk result (λ arms. arms.items ≡ arms_of (lists parts.now) junction) }
{
    let mut arms = Vec::new(alloc);
    for link in links {
        if let Some(segment) = link.segment_at(junction) {
            arms.push(slot_end(parts, firsts, segment, link.segment_end()))?;
        }
    }
    Ok(arms)
}

// For each join of a zone: split from the zone, then merge into it.
fn push_docks(
    parts: &TrapParts,
    firsts: &[u32],
    links: &[Link],
    channels: &mut Vec<Channel>,
) -> Result<(), NoMemory>
    requires trap { IsTrap (lists parts.now) }
    requires firsts { firsts.now ≡ firsts_from (length parts.now.zones.items) parts.now.segments.items }
    requires links { links.now ≡ links_of (lists parts.now) }
    ensures { OnOk result
        (channels.new.items ≡ channels.old.items ++ flat_map (dock_channels (lists parts.now)) links.now) }
{
    for link in links {
        if let Link::Dock {
            zone,
            zone_end,
            segment,
            segment_end,
        } = link
        {
            let slot = slot_end(parts, firsts, *segment, *segment_end);
            push_dock(*zone as u32, *zone_end, slot, channels)?;
        }
    }
    Ok(())
}

// For each segment and each slot but the last: from it to the next, then back.
fn push_moves(parts: &TrapParts, channels: &mut Vec<Channel>) -> Result<(), NoMemory>
    requires { IsTrap (lists parts.now) }
    ensures { OnOk result
        (channels.new.items
        ≡ channels.old.items ++ moves_from (length parts.now.zones.items) parts.now.segments.items) }
{
    let mut place = parts.zones.len() as u32;
    for segment in &parts.segments {
        push_segment(place, segment.slots - 1, channels)?;
        place += segment.slots;
    }
    Ok(())
}

// For each junction and each ordered pair of different arms.
#[tactic(auto, using(crate::proofs::Pieces::flat_map_range_more))]
fn push_crossings(
    alloc: Global,
    parts: &TrapParts,
    firsts: &[u32],
    links: &[Link],
    channels: &mut Vec<Channel>,
) -> Result<(), NoMemory>
    requires trap { IsTrap (lists parts.now) }
    requires firsts { firsts.now ≡ firsts_from (length parts.now.zones.items) parts.now.segments.items }
    requires links { links.now ≡ links_of (lists parts.now) }
    ensures { OnOk result
        (channels.new.items
        ≡ channels.old.items
        ++ flat_map (crossings_of (lists parts.now)) (range_with_len 0 (length parts.now.junctions.items))) }
{
    for junction in 0..parts.junctions.len() {
        let arms = find_arms(alloc, parts, firsts, links, junction)?;
        push_junction(junction as u32, arms.as_slice(), channels)?;
    }
    Ok(())
}

// The channels in the order of their numbers.
pub(crate) fn find_channels(
    alloc: Global,
    parts: &TrapParts,
    firsts: &[u32],
    links: &[Link],
) -> Result<Vec<Channel>, NoMemory>
    requires trap { IsTrap (lists parts.now) }
    requires firsts { firsts.now ≡ firsts_from (length parts.now.zones.items) parts.now.segments.items }
    requires links { links.now ≡ links_of (lists parts.now) }
    ensures { IfOk result (λ channels. channels.items ≡ channels_of (lists parts.now)) }
{
    let mut channels = Vec::new(alloc);
    push_docks(parts, firsts, links, &mut channels)?;
    push_moves(parts, &mut channels)?;
    push_crossings(alloc, parts, firsts, links, &mut channels)?;
    Ok(channels)
}

// The slots of one segment.
fn push_slots(segment: usize, count: u32, slots: &mut Vec<Slot>) -> Result<(), NoMemory>
    ensures { OnOk result (slots.new.items ≡ slots.old.items ++ map (slot segment) (range_with_len 0 count)) }
{
    for index in 0..count {
        slots.push(Slot { segment, index })?;
    }
    Ok(())
}

// Split from the zone, then merge into it.
fn push_dock(
    zone: u32,
    end: End,
    slot: SlotEnd,
    channels: &mut Vec<Channel>,
) -> Result<(), NoMemory>
    ensures { OnOk result
        (channels.new.items ≡ channels.old.items ++ split zone end slot ∷ merge zone end slot ∷ []) }
{
    channels.push(channel(Kind::Split, zone, end, slot.slot, slot.end, None))?;
    channels.push(channel(Kind::Merge, slot.slot, slot.end, zone, end, None))?;
    Ok(())
}

// The channel of that kind from one end of a place to another.
fn channel(
    kind: Kind,
    from: u32,
    from_end: End,
    to: u32,
    to_end: End,
    junction: Option<JunctionId>,
) -> Channel
    ensures { result ≡ channel kind from from_end to to_end junction }
{
    Channel {
        kind,
        from: PlaceId(from),
        from_end,
        to: PlaceId(to),
        to_end,
        junction,
    }
}

// The moves of one segment, whose first slot is at that place: so many pairs.
#[tactic(auto, using(crate::proofs::Pieces::flat_map_range_more))]
fn push_segment(place: u32, pairs: u32, channels: &mut Vec<Channel>) -> Result<(), NoMemory>
    requires { place + pairs < 2 ^ 32 }
    ensures { OnOk result
        (channels.new.items ≡ channels.old.items ++ flat_map move_channels (range_with_len place pairs)) }
{
    for k in 0..pairs {
        let slot = place + k;
        channels.push(channel(Kind::Move, slot, End::B, slot + 1, End::A, None))?;
        channels.push(channel(Kind::Move, slot + 1, End::A, slot, End::B, None))?;
    }
    Ok(())
}

// The crossings of one junction.
fn push_junction(
    junction: u32,
    arms: &[SlotEnd],
    channels: &mut Vec<Channel>,
) -> Result<(), NoMemory>
    ensures { OnOk result
        (channels.new.items
        ≡ channels.old.items ++ flat_map (λ from. flat_map (cross_channels junction from) arms.now) arms.now) }
{
    for from in arms {
        push_arm(junction, *from, arms, channels)?;
    }
    Ok(())
}

// The crossings from one arm.
fn push_arm(
    junction: u32,
    from: SlotEnd,
    arms: &[SlotEnd],
    channels: &mut Vec<Channel>,
) -> Result<(), NoMemory>
    ensures { OnOk result
        (channels.new.items ≡ channels.old.items ++ flat_map (cross_channels junction from) arms.now) }
{
    for to in arms {
        if from.slot != to.slot {
            let through = Some(JunctionId(junction));
            channels.push(channel(Kind::Cross, from.slot, from.end, to.slot, to.end, through))?;
        }
    }
    Ok(())
}
