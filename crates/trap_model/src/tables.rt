//! The numbers of the channels, so that a look-up goes over no list of joins. The limits keep the tables small.

ghost use Rattle.std.specs.Prelude.{◌≡◌, ℕ, ◌+◌, ◌<◌, ◌≤◌, ◌^◌, length, map, take, drop, false, IfOk, slice_index_or};
ghost use Rattle.std.specs.List.{position_from, range_with_len, list_any};
ghost use Rattle.trap_model.specs.Channels.{is_split, is_merge, is_move, is_cross, is_through};
ghost use Rattle.trap_model.specs.Tables.{door_of, doors_of, steps_of, IsPassage, ArePassages};

use crate::channel::Channel;
use qc_base::{End, NoMemory};
use std::alloc::Global;

/// The channels at one end of a zone.
#[derive(Clone, Copy, Debug)]
pub struct Door {
    pub split: Option<u32>,
    pub merge: Option<u32>,
}

/// The channels at both ends of a zone.
#[derive(Clone, Copy, Debug)]
pub struct Doors {
    pub a: Door,
    pub b: Door,
}

/// The moves between a place and the next.
#[derive(Clone, Copy, Debug)]
pub struct Steps {
    pub ahead: Option<u32>,
    pub back: Option<u32>,
}

/// Where the crossings of a junction begin and end among the channels.
#[derive(Clone, Copy, Debug)]
pub struct Passage {
    pub first: usize,
    pub end: usize,
}

fn split_number(channels: &[Channel], zone: u32, end: End) -> Option<u32>
    requires { length channels.now < 2 ^ 32 }
    ensures { result ≡ position_from (is_split zone end) 0 channels.now }
{
    for (k, channel) in channels.iter().enumerate() {
        if channel.is_split(zone, end) {
            return Some(k as u32);
        }
    }
    None
}

fn merge_number(channels: &[Channel], zone: u32, end: End) -> Option<u32>
    requires { length channels.now < 2 ^ 32 }
    ensures { result ≡ position_from (is_merge zone end) 0 channels.now }
{
    for (k, channel) in channels.iter().enumerate() {
        if channel.is_merge(zone, end) {
            return Some(k as u32);
        }
    }
    None
}

fn move_number(channels: &[Channel], from: u32, to: u32) -> Option<u32>
    requires { length channels.now < 2 ^ 32 }
    ensures { result ≡ position_from (is_move from to) 0 channels.now }
{
    for (k, channel) in channels.iter().enumerate() {
        if channel.is_move(from, to) {
            return Some(k as u32);
        }
    }
    None
}

// The number of the crossing, which is looked for among those of its junction alone.
pub(crate) fn cross_number(
    channels: &[Channel],
    passage: Passage,
    junction: u32,
    from: u32,
    to: u32,
) -> Option<u32>
    requires small { length channels.now < 2 ^ 32 }
    requires passage { IsPassage channels.now junction passage }
    ensures { result ≡ position_from (is_cross junction from to) 0 channels.now }
{
    for (k, channel) in channels[passage.first..passage.end].iter().enumerate() {
        if channel.is_cross(junction, from, to) {
            return Some((passage.first + k) as u32);
        }
    }
    None
}

fn find_door(channels: &[Channel], zone: u32, end: End) -> Door
    requires { length channels.now < 2 ^ 32 }
    ensures { result ≡ door_of channels.now zone end }
{
    Door {
        split: split_number(channels, zone, end),
        merge: merge_number(channels, zone, end),
    }
}

// The doors of each zone.
pub(crate) fn find_doors(
    alloc: Global,
    channels: &[Channel],
    zones: u32,
) -> Result<Vec<Doors>, NoMemory>
    requires { length channels.now < 2 ^ 32 }
    ensures { IfOk result (λ doors. doors.items ≡ map (doors_of channels.now) (range_with_len 0 zones)) }
{
    let mut doors = Vec::new(alloc);
    for zone in 0..zones {
        doors.push(Doors {
            a: find_door(channels, zone, End::A),
            b: find_door(channels, zone, End::B),
        })?;
    }
    Ok(doors)
}

// The moves of each place.
pub(crate) fn find_steps(
    alloc: Global,
    channels: &[Channel],
    places: u32,
) -> Result<Vec<Steps>, NoMemory>
    requires { length channels.now < 2 ^ 32 }
    ensures { IfOk result (λ steps. steps.items ≡ map (steps_of channels.now) (range_with_len 0 places)) }
{
    let mut steps = Vec::new(alloc);
    for place in 0..places {
        steps.push(Steps {
            ahead: move_number(channels, place, place + 1),
            back: move_number(channels, place + 1, place),
        })?;
    }
    Ok(steps)
}

// Where the crossings of a junction begin.
fn first_crossing(channels: &[Channel], junction: u32) -> usize
    ensures within { result ≤ length channels.now }
    ensures before { list_any (is_through junction) (take result channels.now) ≡ false }
{
    for (k, channel) in channels.iter().enumerate() {
        if channel.is_through(junction) {
            return k;
        }
    }
    channels.len()
}

// Where they end.
fn end_of_crossings(channels: &[Channel], junction: u32) -> usize
    ensures within { result ≤ length channels.now }
    ensures after { list_any (is_through junction) (drop result channels.now) ≡ false }
{
    let mut end = channels.len();
    while end > 0 && !channels[end - 1].is_through(junction) {
        end -= 1;
    }
    end
}

// The passages of each junction.
pub(crate) fn find_passages(
    alloc: Global,
    channels: &[Channel],
    junctions: u32,
) -> Result<Vec<Passage>, NoMemory>
    ensures { IfOk result (λ passages. ArePassages channels.now junctions passages.items) }
{
    let mut passages = Vec::new(alloc);
    for junction in 0..junctions {
        let first = first_crossing(channels, junction);
        let end = end_of_crossings(channels, junction);
        passages.push(Passage {
            first,
            end: end.max(first),
        })?;
    }
    Ok(passages)
}
