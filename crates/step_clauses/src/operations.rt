//! The families that run over operations.

ghost use Rattle.std.specs.Prelude.{◌≡◌, ◌∷◌, [], ◌++◌, map, OnOk, IfOk};
ghost use Rattle.std.specs.List.{flat_map};
ghost use Rattle.step_vars.specs.Lists.{able_zones, is_ion_of};
ghost use Rattle.step_vars.specs.Families.{act_does};
ghost use Rattle.step_clauses.specs.Operations.{ion_in_zone, ions_in_each, op_in_zones, stays_done, was_or_acts, in_order, goal_needs};

use clause_families::{Clauses, Times, act, at, done, ions_for, zones_for};
use qc_base::NoMemory;
use std::alloc::Global;
use step_rules::Setting;
use step_vars::{Cell, Claim, Item};

// Adds that the ions of an operation that is performed in a zone are there.
fn add_ions(
    times: Times,
    ions: &[u32],
    op: u32,
    zone: u32,
    out: &mut Clauses,
) -> Result<(), NoMemory>
    ensures { OnOk result (out.new ≡ out.old ++ map (ion_in_zone times.before times.time op zone) ions.now) }
{
    for ion in ions {
        let performed = Claim::not_so(act(op, zone, times.time));
        out.push(&[performed, Claim::so(at(*ion, zone, times.before))])?;
    }
    Ok(())
}

// The same for these zones.
fn add_zones(
    times: Times,
    ions: &[u32],
    zones: &[u32],
    op: u32,
    out: &mut Clauses,
) -> Result<(), NoMemory>
    ensures { OnOk result (out.new ≡ out.old ++ ions_in_each times.before times.time op ions.now zones.now) }
{
    for zone in zones {
        add_ions(times, ions, op, *zone, out)?;
    }
    Ok(())
}

/// Adds that the ions of an operation that is performed are in its zone.
pub fn add_ions_in_zones(
    alloc: Global,
    setting: &Setting,
    times: Times,
    ions: &[u32],
    ops: &[u32],
    out: &mut Clauses,
) -> Result<(), NoMemory>
    ensures { OnOk result (out.new
        ≡ out.old ++ flat_map (op_in_zones setting.now times.before times.time ions.now) ops.now) }
{
    for op in ops {
        let zones = zones_for(alloc, setting, *op)?;
        let of_op = ions_for(alloc, setting, *op, ions)?;
        add_zones(times, &of_op, &zones, *op, out)?;
    }
    Ok(())
}

// Adds that what is performed was not done before, and is then.
fn add_act(times: Times, it: Cell, out: &mut Clauses) -> Result<(), NoMemory>
    ensures { OnOk result (out.new ≡ out.old ++ act_does times.before times.time it) }
{
    let performed = Claim::not_so(act(it.row, it.col, times.time));
    out.push(&[performed, Claim::not_so(done(it.row, times.before))])?;
    out.push(&[performed, Claim::so(done(it.row, times.time))])
}

/// The same for all operations with their able zones.
pub fn add_acts(times: Times, acts: &[Cell], out: &mut Clauses) -> Result<(), NoMemory>
    ensures { OnOk result (out.new ≡ out.old ++ flat_map (act_does times.before times.time) acts.now) }
{
    for it in acts {
        add_act(times, *it, out)?;
    }
    Ok(())
}

// The claims that an operation is not done, was done before, or is performed in one of these zones.
fn was_done(alloc: Global, times: Times, zones: &[u32], op: u32) -> Result<Vec<Claim>, NoMemory>
    ensures { IfOk result (λ claims. claims.items ≡ was_or_acts times.before times.time zones.now op) }
{
    let mut claims = Vec::new(alloc);
    claims.push(Claim::not_so(done(op, times.time)))?;
    claims.push(Claim::so(done(op, times.before)))?;
    for zone in zones {
        claims.push(Claim::so(act(op, *zone, times.time)))?;
    }
    Ok(claims)
}

// Adds that what is done stays done, and is done by being performed.
fn add_done(
    alloc: Global,
    setting: &Setting,
    times: Times,
    op: u32,
    out: &mut Clauses,
) -> Result<(), NoMemory>
    ensures { OnOk result (out.new ≡ out.old ++ stays_done setting.now times.before times.time op) }
{
    let before: Item = done(op, times.before);
    let after: Item = done(op, times.time);
    out.push(&[Claim::not_so(before), Claim::so(after)])?;
    let zones = zones_for(alloc, setting, op)?;
    let claims = was_done(alloc, times, &zones, op)?;
    out.push(&claims)
}

/// The same for all operations.
pub fn add_all_done(
    alloc: Global,
    setting: &Setting,
    times: Times,
    ops: &[u32],
    out: &mut Clauses,
) -> Result<(), NoMemory>
    ensures { OnOk result (out.new
        ≡ out.old ++ flat_map (stays_done setting.now times.before times.time) ops.now) }
{
    for op in ops {
        add_done(alloc, setting, times, *op, out)?;
    }
    Ok(())
}

/// Adds that what has to come before was done before.
pub fn add_orders(times: Times, orders: &[Cell], out: &mut Clauses) -> Result<(), NoMemory>
    ensures { OnOk result (out.new ≡ out.old ++ map (in_order times.before times.time) orders.now) }
{
    for order in orders {
        let after = Claim::not_so(done(order.row, times.time));
        out.push(&[after, Claim::so(done(order.col, times.before))])?;
    }
    Ok(())
}

/// Adds that the goal needs all operations done.
pub fn add_goal(time: u32, ops: &[u32], out: &mut Clauses) -> Result<(), NoMemory>
    ensures { OnOk result (out.new ≡ out.old ++ map (goal_needs time) ops.now) }
{
    for op in ops {
        let goal = Claim::not_so(Item::Goal { time });
        out.push(&[goal, Claim::so(done(*op, time))])?;
    }
    Ok(())
}
