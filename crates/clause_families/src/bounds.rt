//! The lists of which at most so many may hold.

ghost use Rattle.std.specs.Prelude.{◌≡◌, ◌<◌, ◌∷◌, [], ◌++◌, map, OnOk, IfOk};
ghost use Rattle.std.specs.List.{AllByRecursion};
ghost use Rattle.trap_model.specs.Trap.{place_count};
ghost use Rattle.step_vars.specs.Lists.{ions_of};
ghost use Rattle.step_vars.specs.Families.{bound, few_ions};
ghost use Rattle.clause_families.specs.Bounds.{one_place_of, ions_at, used, swapped, acted, zone_items_of, one_activity_of, crossed};

use crate::items::{act, at, swap, uses};
use crate::lists::{numbers_where, ops_of, zone_count};
use crate::tables::Tables;
use qc_base::{Items, JunctionId, NoMemory, PlaceId};
use std::alloc::Global;
use step_rules::Setting;
use step_vars::{Bound, Cell, ChannelTest, Item, NumberedChannel};

// Where an ion may be.
fn places_of_ion(alloc: Global, time: u32, places: &[u32], ion: u32) -> Result<Vec<Item>, NoMemory>
    ensures { IfOk result (λ items. items.items ≡ (one_place_of time places.now ion).items) }
{
    let mut items = Vec::new(alloc);
    for place in places {
        items.push(at(ion, *place, time))?;
    }
    Ok(items)
}

/// Adds a list for each ion, in order: the ion is in at most one of these places at the time.
/// An `Err` is out of memory; nothing is said of `out` then.
pub fn add_one_places(
    alloc: Global,
    time: u32,
    places: &[u32],
    ions: &[u32],
    out: &mut Vec<Bound>,
) -> Result<(), NoMemory>
    ensures { OnOk result (out.new.items ≡ out.old.items ++ map (one_place_of time places.now) ions.now) }
{
    for ion in ions {
        let items = places_of_ion(alloc, time, places, *ion)?;
        out.push(Bound {
            limit: 1,
            items: Items::from_vec(items),
        })?;
    }
    Ok(())
}

// Which ions may be in a place.
fn ions_of_place(alloc: Global, time: u32, ions: &[u32], place: u32) -> Result<Vec<Item>, NoMemory>
    ensures { IfOk result (λ items. items.items ≡ ions_at time ions.now place) }
{
    let mut items = Vec::new(alloc);
    for ion in ions {
        items.push(at(*ion, place, time))?;
    }
    Ok(items)
}

// Adds that a place has no more ions than its limit.
fn add_few_ions_at(
    alloc: Global,
    setting: &Setting,
    time: u32,
    ions: &[u32],
    place: u32,
    out: &mut Vec<Bound>,
) -> Result<(), NoMemory>
    requires place { place < place_count setting.now.trap }
    requires ions { ions.now ≡ ions_of setting.now }
    ensures { OnOk result (out.new.items ≡ out.old.items ++ few_ions setting.now time place ∷ []) }
{
    let items = ions_of_place(alloc, time, ions, place)?;
    out.push(Bound {
        limit: setting.trap.limit(PlaceId(place)),
        items: Items::from_vec(items),
    })?;
    Ok(())
}

/// Adds a list for each place, in order: no more of the ions than its limit are there at the time.
/// An `Err` is out of memory; nothing is said of `out` then.
pub fn add_few_ions(
    alloc: Global,
    setting: &Setting,
    time: u32,
    ions: &[u32],
    places: &[u32],
    out: &mut Vec<Bound>,
) -> Result<(), NoMemory>
    requires places { AllByRecursion (λ p. p < place_count setting.now.trap) places.now }
    requires ions { ions.now ≡ ions_of setting.now }
    ensures { OnOk result (out.new.items ≡ out.old.items ++ map (few_ions setting.now time) places.now) }
{
    for place in places {
        add_few_ions_at(alloc, setting, time, ions, *place, out)?;
    }
    Ok(())
}

// Adds the channels of these numbers.
fn add_uses(time: u32, numbers: &[u32], items: &mut Vec<Item>) -> Result<(), NoMemory>
    ensures { OnOk result (items.new.items ≡ items.old.items ++ map (used time) numbers.now) }
{
    for channel in numbers {
        items.push(uses(*channel, time))?;
    }
    Ok(())
}

// Adds the swaps in a zone.
fn add_swaps(time: u32, zone: u32, pairs: &[Cell], items: &mut Vec<Item>) -> Result<(), NoMemory>
    ensures { OnOk result (items.new.items ≡ items.old.items ++ map (swapped time zone) pairs.now) }
{
    for pair in pairs {
        items.push(swap(pair.row, pair.col, zone, time))?;
    }
    Ok(())
}

// Adds the operations that are performed in a zone.
fn add_acts(time: u32, zone: u32, ops: &[u32], items: &mut Vec<Item>) -> Result<(), NoMemory>
    ensures { OnOk result (items.new.items ≡ items.old.items ++ map (acted time zone) ops.now) }
{
    for op in ops {
        items.push(act(*op, zone, time))?;
    }
    Ok(())
}

// Adds what may happen in a zone.
fn add_in_zone(
    alloc: Global,
    setting: &Setting,
    tables: &Tables,
    time: u32,
    place: u32,
    items: &mut Vec<Item>,
) -> Result<(), NoMemory>
    ensures { OnOk result (items.new.items
        ≡ items.old.items ++ zone_items_of setting.now tables.now time place) }
{
    if place < zone_count(setting) {
        let ops = ops_of(alloc, setting, place, &tables.ops)?;
        add_swaps(time, place, tables.pairs, items)?;
        add_acts(time, place, &ops, items)
    } else {
        Ok(())
    }
}

// That at most one of these items holds.
fn at_most_one(items: Vec<Item>) -> Bound
    ensures { result ≡ bound 1 items.items }
{
    Bound {
        limit: 1,
        items: Items::from_vec(items),
    }
}

// That at a place at most one thing happens.
#[tactic(auto, unfolding(crate::specs::Bounds::one_activity))]
fn activity(
    alloc: Global,
    setting: &Setting,
    tables: &Tables,
    time: u32,
    place: u32,
) -> Result<Bound, NoMemory>
    ensures { IfOk result (λ it. it ≡ one_activity_of setting.now tables.now time place) }
{
    let test = ChannelTest::Touching(PlaceId(place));
    let channels = numbers_where(alloc, test, &tables.channels)?;
    let mut items = Vec::new(alloc);
    add_uses(time, &channels, &mut items)?;
    add_in_zone(alloc, setting, tables, time, place, &mut items)?;
    Ok(at_most_one(items))
}

/// Adds a list for each place, in order: in the step at most one channel is used that begins or ends there,
/// or pair swapped or operation performed in the zone. An `Err` is out of memory; nothing is said of `out`
/// then.
pub fn add_one_activities(
    alloc: Global,
    setting: &Setting,
    tables: &Tables,
    time: u32,
    places: &[u32],
    out: &mut Vec<Bound>,
) -> Result<(), NoMemory>
    ensures { OnOk result (out.new.items
        ≡ out.old.items ++ map (one_activity_of setting.now tables.now time) places.now) }
{
    for place in places {
        let it = activity(alloc, setting, tables, time, *place)?;
        out.push(it)?;
    }
    Ok(())
}

// That through a junction at most one chain passes.
#[tactic(auto, unfolding(crate::specs::Bounds::crossed))]
fn crossing(
    alloc: Global,
    time: u32,
    channels: &[NumberedChannel],
    junction: u32,
) -> Result<Bound, NoMemory>
    ensures { IfOk result (λ it. it ≡ crossed time channels.now junction) }
{
    let test = ChannelTest::Through(JunctionId(junction));
    let numbers = numbers_where(alloc, test, channels)?;
    let mut items = Vec::new(alloc);
    add_uses(time, &numbers, &mut items)?;
    Ok(at_most_one(items))
}

/// Adds a list for each junction, in order: in the step at most one of the channels through it is used.
/// An `Err` is out of memory; nothing is said of `out` then.
pub fn add_one_crossings(
    alloc: Global,
    time: u32,
    channels: &[NumberedChannel],
    junctions: &[u32],
    out: &mut Vec<Bound>,
) -> Result<(), NoMemory>
    ensures { OnOk result (out.new.items ≡ out.old.items ++ map (crossed time channels.now) junctions.now) }
{
    for junction in junctions {
        let it = crossing(alloc, time, channels, *junction)?;
        out.push(it)?;
    }
    Ok(())
}
