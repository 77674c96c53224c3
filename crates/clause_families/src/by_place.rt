//! The families that run over ions and places.

ghost use Rattle.std.specs.Prelude.{◌≡◌, ◌∷◌, [], ◌++◌, map, OnOk, IfOk};
ghost use Rattle.clause_families.specs.Clauses.{at_ends_from, at_ends_into, was_or_passes, ions_at_places};

use crate::clauses::Clauses;
use crate::items::{at, leaves};
use crate::lists::numbers_where;
use qc_base::{Items, NoMemory, PlaceId};
use std::alloc::Global;
use step_vars::{ChannelTest, Claim, NumberedChannel};

/// A place with the numbers of channels that begin or end there.
#[derive(Debug, Drop)]
pub struct PlaceChannels {
    pub place: u32,
    pub channels: Items<u32>,
}

// A place with the channels that begin there.
fn from_place(
    alloc: Global,
    channels: &[NumberedChannel],
    place: u32,
) -> Result<PlaceChannels, NoMemory>
    ensures { IfOk result (λ it. it ≡ at_ends_from channels.now place) }
{
    let numbers = numbers_where(alloc, ChannelTest::From(PlaceId(place)), channels)?;
    let channels = Items::from_vec(numbers);
    Ok(PlaceChannels { place, channels })
}

// A place with the channels that end there.
fn into_place(
    alloc: Global,
    channels: &[NumberedChannel],
    place: u32,
) -> Result<PlaceChannels, NoMemory>
    ensures { IfOk result (λ it. it ≡ at_ends_into channels.now place) }
{
    let numbers = numbers_where(alloc, ChannelTest::Into(PlaceId(place)), channels)?;
    let channels = Items::from_vec(numbers);
    Ok(PlaceChannels { place, channels })
}

/// Each place with the numbers of the channels that begin there. An `Err` is out of memory.
pub fn channels_from(
    alloc: Global,
    places: &[u32],
    channels: &[NumberedChannel],
) -> Result<Vec<PlaceChannels>, NoMemory>
    ensures { IfOk result (λ lists. lists.items ≡ map (at_ends_from channels.now) places.now) }
{
    let mut lists = Vec::new(alloc);
    for place in places {
        let it = from_place(alloc, channels, *place)?;
        lists.push(it)?;
    }
    Ok(lists)
}

/// Each place with the numbers of the channels that end there. An `Err` is out of memory.
pub fn channels_into(
    alloc: Global,
    places: &[u32],
    channels: &[NumberedChannel],
) -> Result<Vec<PlaceChannels>, NoMemory>
    ensures { IfOk result (λ lists. lists.items ≡ map (at_ends_into channels.now) places.now) }
{
    let mut lists = Vec::new(alloc);
    for place in places {
        let it = into_place(alloc, channels, *place)?;
        lists.push(it)?;
    }
    Ok(lists)
}

// The claims that an ion is not at a place at one time, is there at the other, or passes in a step.
fn claims_of(
    alloc: Global,
    times: (u32, u32),
    step: u32,
    ion: u32,
    place: &PlaceChannels,
) -> Result<Vec<Claim>, NoMemory>
    ensures { IfOk result (λ claims. claims.items ≡ was_or_passes times.0 times.1 step ion place.now) }
{
    let mut claims = Vec::new(alloc);
    claims.push(Claim::not_so(at(ion, place.place, times.0)))?;
    claims.push(Claim::so(at(ion, place.place, times.1)))?;
    for channel in place.channels.items() {
        claims.push(Claim::so(leaves(ion, *channel, step)))?;
    }
    Ok(claims)
}

// Adds these clauses for all places.
fn add_places(
    alloc: Global,
    times: (u32, u32),
    step: u32,
    places: &[PlaceChannels],
    ion: u32,
    out: &mut Clauses,
) -> Result<(), NoMemory>
    ensures { OnOk result (out.new ≡ out.old ++ map (was_or_passes times.0 times.1 step ion) places.now) }
{
    for place in places {
        let claims = claims_of(alloc, times, step, ion, place)?;
        out.push(&claims)?;
    }
    Ok(())
}

/// Adds one clause for each ion with each place, ion after ion: if the ion is there at the first of the
/// times, it is there at the second, or passes in the step through one of the channels of the place. An `Err`
/// is out of memory; nothing is said of `out` then.
pub fn add_ions_at_places(
    alloc: Global,
    times: (u32, u32),
    step: u32,
    places: &[PlaceChannels],
    ions: &[u32],
    out: &mut Clauses,
) -> Result<(), NoMemory>
    ensures { OnOk result (out.new ≡ out.old ++ ions_at_places times.0 times.1 step places.now ions.now) }
{
    for ion in ions {
        add_places(alloc, times, step, places, *ion, out)?;
    }
    Ok(())
}
