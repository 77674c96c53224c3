//! The clauses of a step, in groups of families.

ghost use Rattle.std.specs.Prelude.{◌≡◌, ◌++◌, OnOk, IfOk};
ghost use Rattle.step_vars.specs.Families.{leaves_from_source, leaves_to_target, leaves_use_channel, all_stay_or_leave, all_stayed_or_came, use_passes_some, use_needs_empty_slot, use_empties_slot, splits_take_the_front, swaps_in_zone, swaps_of_neighbours, swaps_turn, stayers_keep_order, chains_keep_order, merges_at_the_end};
ghost use Rattle.step_vars.specs.Encoding.{passing_clauses, order_clauses, operation_clauses, place_bounds, activity_bounds};
ghost use Rattle.clause_families.specs.Tables.{AreTables};

use crate::operations::{add_acts, add_all_done, add_ions_in_zones, add_orders};
use clause_families::{
    Clauses, IonRule, PairRule, Tables, Times, TwoIonRule, add_chains, add_few_ions,
    add_ions_at_channels, add_ions_at_places, add_one_activities, add_one_crossings,
    add_one_places, add_pairs_at_places, add_passers, add_two_ions_at_channels, channels_from,
    channels_into, channels_where, zone_count,
};
use qc_base::NoMemory;
use std::alloc::Global;
use step_rules::Setting;
use step_vars::{Bound, ChannelTest};

// Adds what ions that pass say of their channel.
fn add_transfers(
    setting: &Setting,
    tables: &Tables,
    times: Times,
    out: &mut Clauses,
) -> Result<(), NoMemory>
    requires { AreTables setting.now tables.now }
    ensures { OnOk result (out.new ≡ out.old
        ++ leaves_from_source setting.now times.before times.time
        ++ leaves_to_target setting.now times.before times.time
        ++ leaves_use_channel setting.now times.before times.time) }
{
    add_ions_at_channels(
        IonRule::FromSource,
        times,
        &tables.ions,
        &tables.channels,
        out,
    )?;
    add_ions_at_channels(
        IonRule::ToTarget,
        times,
        &tables.ions,
        &tables.channels,
        out,
    )?;
    add_ions_at_channels(
        IonRule::UsesChannel,
        times,
        &tables.ions,
        &tables.channels,
        out,
    )
}

// Adds that ions stay or leave.
fn add_departures(
    alloc: Global,
    setting: &Setting,
    tables: &Tables,
    times: Times,
    out: &mut Clauses,
) -> Result<(), NoMemory>
    requires { AreTables setting.now tables.now }
    ensures { OnOk result (out.new ≡ out.old ++ all_stay_or_leave setting.now times.before times.time) }
{
    let places = channels_from(alloc, &tables.places, &tables.channels)?;
    let both = (times.before, times.time);
    add_ions_at_places(alloc, both, times.time, &places, &tables.ions, out)
}

// Adds that ions were there before or came.
fn add_arrivals(
    alloc: Global,
    setting: &Setting,
    tables: &Tables,
    times: Times,
    out: &mut Clauses,
) -> Result<(), NoMemory>
    requires { AreTables setting.now tables.now }
    ensures { OnOk result (out.new ≡ out.old ++ all_stayed_or_came setting.now times.before times.time) }
{
    let places = channels_into(alloc, &tables.places, &tables.channels)?;
    let both = (times.time, times.before);
    add_ions_at_places(alloc, both, times.time, &places, &tables.ions, out)
}

// Adds that channels lead into empty slots, and whole chains out of slots.
fn add_slots(
    alloc: Global,
    setting: &Setting,
    tables: &Tables,
    times: Times,
    out: &mut Clauses,
) -> Result<(), NoMemory>
    requires { AreTables setting.now tables.now }
    ensures { OnOk result (out.new ≡ out.old
        ++ use_needs_empty_slot setting.now times.before times.time
        ++ use_empties_slot setting.now times.before times.time) }
{
    let zones = zone_count(setting);
    let into = channels_where(alloc, ChannelTest::IntoSlot(zones), &tables.channels)?;
    add_ions_at_channels(IonRule::FindsEmptySlot, times, &tables.ions, &into, out)?;
    let from = channels_where(alloc, ChannelTest::FromSlot(zones), &tables.channels)?;
    add_ions_at_channels(IonRule::EmptiesSlot, times, &tables.ions, &from, out)
}

// Adds that a split takes the ions at the exit.
fn add_splits(
    alloc: Global,
    setting: &Setting,
    tables: &Tables,
    times: Times,
    out: &mut Clauses,
) -> Result<(), NoMemory>
    requires { AreTables setting.now tables.now }
    ensures { OnOk result (out.new ≡ out.old ++ splits_take_the_front setting.now times.before times.time) }
{
    let splits = channels_where(alloc, ChannelTest::Splits, &tables.channels)?;
    add_two_ions_at_channels(TwoIonRule::GoesAlong, times, &tables.ions, &splits, out)
}

/// Adds how ions pass through channels.
pub fn add_passing(
    alloc: Global,
    setting: &Setting,
    tables: &Tables,
    times: Times,
    out: &mut Clauses,
) -> Result<(), NoMemory>
    requires { AreTables setting.now tables.now }
    ensures { OnOk result (out.new ≡ out.old ++ passing_clauses setting.now times.before times.time) }
{
    add_transfers(setting, tables, times, out)?;
    add_departures(alloc, setting, tables, times, out)?;
    add_arrivals(alloc, setting, tables, times, out)?;
    add_passers(alloc, times.time, &tables.ions, &tables.channels, out)?;
    add_slots(alloc, setting, tables, times, out)?;
    add_splits(alloc, setting, tables, times, out)
}

// Adds what swaps say.
fn add_swaps(
    setting: &Setting,
    tables: &Tables,
    times: Times,
    out: &mut Clauses,
) -> Result<(), NoMemory>
    requires { AreTables setting.now tables.now }
    ensures { OnOk result (out.new ≡ out.old
        ++ swaps_in_zone setting.now times.before times.time
        ++ swaps_of_neighbours setting.now times.before times.time
        ++ swaps_turn setting.now times.before times.time) }
{
    let ions = &tables.ions;
    let zones = &tables.zones;
    add_pairs_at_places(PairRule::InZone, times, ions, tables.pairs, zones, out)?;
    add_pairs_at_places(PairRule::NoneBetween, times, ions, tables.pairs, zones, out)?;
    add_pairs_at_places(PairRule::Turns, times, ions, tables.pairs, zones, out)
}

// Adds that ions that stay keep their order.
fn add_stayers(
    setting: &Setting,
    tables: &Tables,
    times: Times,
    out: &mut Clauses,
) -> Result<(), NoMemory>
    requires { AreTables setting.now tables.now }
    ensures { OnOk result (out.new ≡ out.old ++ stayers_keep_order setting.now times.before times.time) }
{
    let rule = PairRule::Stays(zone_count(setting));
    add_pairs_at_places(rule, times, &tables.ions, tables.pairs, &tables.places, out)
}

// Adds that ions merge at the end by which they come.
fn add_merges(
    alloc: Global,
    setting: &Setting,
    tables: &Tables,
    times: Times,
    out: &mut Clauses,
) -> Result<(), NoMemory>
    requires { AreTables setting.now tables.now }
    ensures { OnOk result (out.new ≡ out.old ++ merges_at_the_end setting.now times.before times.time) }
{
    let merges = channels_where(alloc, ChannelTest::Merges, &tables.channels)?;
    add_two_ions_at_channels(TwoIonRule::MergesOutside, times, &tables.ions, &merges, out)
}

/// Adds the order of ions.
pub fn add_order(
    alloc: Global,
    setting: &Setting,
    tables: &Tables,
    times: Times,
    out: &mut Clauses,
) -> Result<(), NoMemory>
    requires { AreTables setting.now tables.now }
    ensures { OnOk result (out.new ≡ out.old ++ order_clauses setting.now times.before times.time) }
{
    add_swaps(setting, tables, times, out)?;
    add_stayers(setting, tables, times, out)?;
    add_chains(times, tables.pairs, &tables.channels, out)?;
    add_merges(alloc, setting, tables, times, out)
}

/// Adds what operations say.
pub fn add_operations(
    alloc: Global,
    setting: &Setting,
    tables: &Tables,
    times: Times,
    out: &mut Clauses,
) -> Result<(), NoMemory>
    requires { AreTables setting.now tables.now }
    ensures { OnOk result (out.new ≡ out.old ++ operation_clauses setting.now times.before times.time) }
{
    add_ions_in_zones(alloc, setting, times, &tables.ions, &tables.ops, out)?;
    add_acts(times, tables.acts, out)?;
    add_all_done(alloc, setting, times, &tables.ops, out)?;
    add_orders(times, tables.orders, out)
}

/// What places hold at most.
pub fn places_hold(
    alloc: Global,
    setting: &Setting,
    tables: &Tables,
    time: u32,
) -> Result<Vec<Bound>, NoMemory>
    requires { AreTables setting.now tables.now }
    ensures { IfOk result (λ bounds. bounds.items ≡ place_bounds setting.now time) }
{
    let mut bounds = Vec::new(alloc);
    add_one_places(alloc, time, &tables.places, &tables.ions, &mut bounds)?;
    add_few_ions(
        alloc,
        setting,
        time,
        &tables.ions,
        &tables.places,
        &mut bounds,
    )?;
    Ok(bounds)
}

/// How much happens at most at a place and in a junction.
pub fn happen_at_once(
    alloc: Global,
    setting: &Setting,
    tables: &Tables,
    time: u32,
) -> Result<Vec<Bound>, NoMemory>
    requires { AreTables setting.now tables.now }
    ensures { IfOk result (λ bounds. bounds.items ≡ activity_bounds setting.now time) }
{
    let mut bounds = Vec::new(alloc);
    add_one_activities(alloc, setting, tables, time, &tables.places, &mut bounds)?;
    add_one_crossings(
        alloc,
        time,
        &tables.channels,
        &tables.junctions,
        &mut bounds,
    )?;
    Ok(bounds)
}
