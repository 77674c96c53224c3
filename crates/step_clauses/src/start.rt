//! The clauses of the time before the first step.

ghost use Rattle.std.specs.Prelude.{◌≡◌, ◌++◌, map, length, false, OnOk, slice_get};
ghost use Rattle.std.specs.List.{flat_map, list_any};
ghost use Rattle.std.specs.Option.{option_map_or};
ghost use Rattle.step_rules.specs.Placement.{IsPlacement};
ghost use Rattle.step_vars.specs.Lists.{is_there, is_before};
ghost use Rattle.step_vars.specs.Encoding.{start_clauses};
ghost use Rattle.step_clauses.specs.Start.{is_in_place, place_claim, place_claims, order_claim, undone};
ghost use Rattle.clause_families.specs.Tables.{AreTables};

use clause_families::{Clauses, Tables, at, done, ord};
use qc_base::{Ion, NoMemory, PlaceId};
use std::alloc::Global;
use step_rules::{Config, Setting};
use step_vars::{Cell, Claim};

// Whether an ion is among these.
fn is_in(ions: &[Ion], ion: u32) -> bool
    ensures { result ≡ is_there ion ions.now }
{
    for other in ions {
        if other.0 == ion {
            return true;
        }
    }
    false
}

// Whether an ion is before another in a list.
fn is_earlier(ions: &[Ion], first: u32, second: u32) -> bool
    ensures { result ≡ is_before first second ions.now }
{
    for (index, ion) in ions.iter().enumerate() {
        if ion.0 == first {
            return is_in(&ions[index + 1..], second);
        }
    }
    false
}

// Whether an ion begins at a place.
fn begins_at(config: &Config, ion: u32, place: u32, places: u32) -> bool
    requires { places ≡ length config.now.lists }
    ensures { result ≡ is_in_place config.now.lists ion place }
{
    if place < places {
        is_in(config.list(PlaceId(place)), ion)
    } else {
        false
    }
}

// Whether two ions begin in one place, the first nearer to end a.
fn begins_earlier(config: &Config, first: u32, second: u32, places: u32) -> bool
    requires { places ≡ length config.now.lists }
    ensures { result ≡ list_any (is_before first second) config.now.lists }
{
    for place in 0..places {
        if is_earlier(config.list(PlaceId(place)), first, second) {
            return true;
        }
    }
    false
}

// Adds in which places an ion begins.
fn add_places(
    config: &Config,
    count: u32,
    places: &[u32],
    ion: u32,
    out: &mut Clauses,
) -> Result<(), NoMemory>
    requires { count ≡ length config.now.lists }
    ensures { OnOk result (out.new ≡ out.old ++ map (place_claim config.now.lists ion) places.now) }
{
    for place in places {
        out.push(&[Claim {
            item: at(ion, *place, 0),
            positive: begins_at(config, ion, *place, count),
        }])?;
    }
    Ok(())
}

// The same for all ions.
fn add_ions(
    config: &Config,
    count: u32,
    places: &[u32],
    ions: &[u32],
    out: &mut Clauses,
) -> Result<(), NoMemory>
    requires { count ≡ length config.now.lists }
    ensures { OnOk result (out.new
        ≡ out.old ++ flat_map (place_claims config.now.lists places.now) ions.now) }
{
    for ion in ions {
        add_places(config, count, places, *ion, out)?;
    }
    Ok(())
}

// Adds the order of each pair.
fn add_orders(
    config: &Config,
    count: u32,
    pairs: &[Cell],
    out: &mut Clauses,
) -> Result<(), NoMemory>
    requires { count ≡ length config.now.lists }
    ensures { OnOk result (out.new ≡ out.old ++ map (order_claim config.now.lists) pairs.now) }
{
    for pair in pairs {
        out.push(&[Claim {
            item: ord(pair.row, pair.col, 0),
            positive: begins_earlier(config, pair.row, pair.col, count),
        }])?;
    }
    Ok(())
}

// Adds that nothing is done.
fn add_undone(ops: &[u32], out: &mut Clauses) -> Result<(), NoMemory>
    ensures { OnOk result (out.new ≡ out.old ++ map undone ops.now) }
{
    for op in ops {
        out.push(&[Claim::not_so(done(*op, 0))])?;
    }
    Ok(())
}

/// Adds where the ions stand before the first step, and that nothing is done.
pub fn add_start(
    alloc: Global,
    setting: &Setting,
    tables: &Tables,
    out: &mut Clauses,
) -> Result<(), NoMemory>
    requires tables { AreTables setting.now tables.now }
    requires placement { IsPlacement setting.now.trap setting.now.circuit setting.now.placement }
    ensures { OnOk result (out.new ≡ out.old ++ start_clauses setting.now) }
{
    let config = Config::start(alloc, setting.trap, setting.placement)?;
    let count = setting.trap.places();
    add_ions(&config, count, &tables.places, &tables.ions, out)?;
    add_orders(&config, count, tables.pairs, out)?;
    add_undone(&tables.ops, out)
}
