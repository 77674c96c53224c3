//! All that can happen in a step, in order.

ghost use Rattle.std.specs.Prelude.{◌≡◌, ◌<◌, ◌≤◌, ◌++◌, ◌^◌, All, length, map, filter, IfOk, OnOk};
ghost use Rattle.std.specs.List.{flat_map, range_with_len};
ghost use Rattle.trap_model.specs.Trap.{place_count};
ghost use Rattle.step_vars.specs.Encoding.{vars_of};
ghost use Rattle.step_rules.specs.Guards.{is_able_for};
ghost use Rattle.step_facts.specs.Activities.{activities_of};
ghost use Rattle.extract.specs.Reading.{seen, place_in, passages_from, exchanges_in, operations_in};

use crate::activity::Activity;
use qc_base::{NoMemory, OpId, PlaceId};
use std::alloc::Global;
use step_rules::Setting;
use step_vars::{Cell, Vars, is_able};
use trap_model::Channel;

// Adds the passages through channels.
fn add_passages(channels: &[Channel], out: &mut Vec<Activity>) -> Result<(), NoMemory>
    requires { length channels.now < 2 ^ 32 }
    ensures { OnOk result (map seen out.new.items ≡ map seen out.old.items ++ passages_from 0 channels.now) }
{
    for (number, channel) in channels.iter().enumerate() {
        out.push(Activity::Passage {
            number: number as u32,
            channel: *channel,
        })?;
    }
    Ok(())
}

// Adds the exchanges of pairs in a zone.
fn add_exchanges_in(zone: u32, pairs: &[Cell], out: &mut Vec<Activity>) -> Result<(), NoMemory>
    ensures { OnOk result (map seen out.new.items ≡ map seen out.old.items ++ exchanges_in pairs.now zone) }
{
    for pair in pairs {
        out.push(Activity::Exchange {
            first: pair.row,
            second: pair.col,
            zone,
        })?;
    }
    Ok(())
}

// Adds the exchanges of pairs in so many zones.
fn add_exchanges(zones: u32, pairs: &[Cell], out: &mut Vec<Activity>) -> Result<(), NoMemory>
    ensures { OnOk result (map seen out.new.items
        ≡ map seen out.old.items ++ flat_map (exchanges_in pairs.now) (range_with_len 0 zones)) }
{
    for zone in 0..zones {
        add_exchanges_in(zone, pairs, out)?;
    }
    Ok(())
}

// Adds the operations that a zone is able to perform.
fn add_operations_in(
    setting: &Setting,
    zone: u32,
    ops: &[Cell],
    out: &mut Vec<Activity>,
) -> Result<(), NoMemory>
    requires { zone < length setting.now.trap.zones }
    ensures { OnOk result (map seen out.new.items
        ≡ map seen out.old.items ++ operations_in setting.now ops.now zone) }
{
    for cell in ops {
        if is_able(setting, PlaceId(zone), OpId(cell.row)) {
            out.push(Activity::Operation { op: cell.row, zone })?;
        }
    }
    Ok(())
}

// Adds the operations that so many zones are able to perform.
fn add_operations(
    setting: &Setting,
    zones: u32,
    ops: &[Cell],
    out: &mut Vec<Activity>,
) -> Result<(), NoMemory>
    requires { zones ≤ length setting.now.trap.zones }
    ensures { OnOk result (map seen out.new.items
        ≡ map seen out.old.items ++ flat_map (operations_in setting.now ops.now) (range_with_len 0 zones)) }
{
    for zone in 0..zones {
        add_operations_in(setting, zone, ops, out)?;
    }
    Ok(())
}

/// All that can happen in a step: channels in order, then swaps by zone, then operations by zone.
pub fn activities(alloc: Global, setting: &Setting, vars: &Vars) -> Result<Vec<Activity>, NoMemory>
    requires { vars.now ≡ vars_of setting.now vars.now.encoding vars.now.steps }
    ensures all { IfOk result (λ activities. map seen activities.items ≡ activities_of setting.now) }
    ensures there { IfOk result (λ activities.
        All (λ activity. place_in (seen activity) < place_count setting.now.trap) activities.items) }
{
    let zones = setting.trap.zones().len() as u32;
    let mut out = Vec::new(alloc);
    add_passages(setting.trap.channels(), &mut out)?;
    add_exchanges(zones, vars.pairs(), &mut out)?;
    add_operations(setting, zones, vars.ops(), &mut out)?;
    Ok(out)
}
