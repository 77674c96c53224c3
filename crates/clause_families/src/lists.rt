//! The lists that the families run over.

ghost use Rattle.std.specs.Prelude.{◌≡◌, ◌≤◌, ◌<◌, ◌==◌, map, filter, length, IfOk};
ghost use Rattle.std.specs.List.{range_with_len, list_any};
ghost use Rattle.circuit_core.specs.Op.{qubits_of};
ghost use Rattle.step_rules.specs.Placement.{ion_of};
ghost use Rattle.step_rules.specs.Guards.{is_able_for};
ghost use Rattle.step_vars.specs.ChannelTests.{passes};
ghost use Rattle.step_vars.specs.Lists.{numbered_from, is_ion_of, able_zones};
ghost use Rattle.clause_families.specs.Clauses.{row_of, passing, numbers_passing};

use circuit_core::Op;
use qc_base::{NoMemory, OpId, PlaceId};
use std::alloc::Global;
use step_rules::{Placement, Setting};
use step_vars::{Cell, ChannelTest, NumberedChannel, is_able};
use trap_model::Channel;

/// The numbers below a number.
#[tactic(auto, using(crate::proofs::Ranges::range_below))]
pub fn numbers_below(alloc: Global, count: u32) -> Result<Vec<u32>, NoMemory>
    ensures { IfOk result (λ numbers. numbers.items ≡ range_with_len 0 count) }
{
    let mut numbers = Vec::new(alloc);
    for number in 0..count {
        numbers.push(number)?;
    }
    Ok(numbers)
}

/// The rows of cells, in order. An `Err` is out of memory.
pub fn rows(alloc: Global, cells: &[Cell]) -> Result<Vec<u32>, NoMemory>
    ensures { IfOk result (λ rows. rows.items ≡ map row_of cells.now) }
{
    let mut rows = Vec::new(alloc);
    for cell in cells {
        rows.push(cell.row)?;
    }
    Ok(rows)
}

/// The channels with their numbers.
pub fn numbered(alloc: Global, channels: &[Channel]) -> Result<Vec<NumberedChannel>, NoMemory>
    requires { length channels.now ≤ 2048 }
    ensures { IfOk result (λ list. list.items ≡ numbered_from 0 channels.now) }
{
    let mut list = Vec::new(alloc);
    for (number, channel) in channels.iter().enumerate() {
        list.push(NumberedChannel {
            number: number as u32,
            channel: *channel,
        })?;
    }
    Ok(list)
}

/// The channels that pass a test, in order. An `Err` is out of memory.
pub fn channels_where(
    alloc: Global,
    test: ChannelTest,
    channels: &[NumberedChannel],
) -> Result<Vec<NumberedChannel>, NoMemory>
    ensures { IfOk result (λ list. list.items ≡ filter (passing (passes test)) channels.now) }
{
    let mut list = Vec::new(alloc);
    for channel in channels {
        if test.passes(&channel.channel) {
            list.push(*channel)?;
        }
    }
    Ok(list)
}

/// The numbers of the channels that pass a test.
pub fn numbers_where(
    alloc: Global,
    test: ChannelTest,
    channels: &[NumberedChannel],
) -> Result<Vec<u32>, NoMemory>
    ensures { IfOk result (λ list. list.items ≡ numbers_passing test channels.now) }
{
    let mut list = Vec::new(alloc);
    for channel in channels {
        if test.passes(&channel.channel) {
            list.push(channel.number)?;
        }
    }
    Ok(list)
}

/// How many zones there are.
pub fn zone_count(setting: &Setting) -> u32
    ensures { result ≡ length setting.now.trap.zones }
{
    setting.trap.zones().len() as u32
}

/// The zones that are able to perform an operation, ascending. An `Err` is out of memory.
#[tactic(auto, using(crate::proofs::Ranges::filter_taken, crate::proofs::Ranges::filter_passed))]
pub fn zones_for(alloc: Global, setting: &Setting, op: u32) -> Result<Vec<u32>, NoMemory>
    ensures { IfOk result (λ zones. zones.items ≡ able_zones setting.now op) }
{
    let mut zones = Vec::new(alloc);
    for zone in 0..zone_count(setting) {
        if is_able(setting, PlaceId(zone), OpId(op)) {
            zones.push(zone)?;
        }
    }
    Ok(zones)
}

/// The operations among these that a zone is able to perform.
pub fn ops_of(
    alloc: Global,
    setting: &Setting,
    zone: u32,
    ops: &[u32],
) -> Result<Vec<u32>, NoMemory>
    requires { zone < length setting.now.trap.zones }
    ensures { IfOk result (λ able. able.items ≡ filter (is_able_for setting.now zone) ops.now) }
{
    let mut able = Vec::new(alloc);
    for op in ops {
        if is_able(setting, PlaceId(zone), OpId(*op)) {
            able.push(*op)?;
        }
    }
    Ok(able)
}

// Whether one of the qubits of an operation is carried by an ion.
fn carries(placement: &Placement, op: &Op, ion: u32) -> bool
    ensures { result ≡ list_any (λ qubit. ion == (ion_of placement.now qubit).0) (qubits_of op.now) }
{
    for index in 0..op.width() {
        let carrier = placement.ion_of(op.qubit(index));
        if ion == carrier.0 {
            return true;
        }
    }
    false
}

// Whether an operation acts on an ion.
fn acts_on(setting: &Setting, op: u32, ion: u32) -> bool
    ensures { result ≡ is_ion_of setting.now op ion }
{
    match setting.circuit.op(OpId(op)) {
        Some(op) => carries(setting.placement, op, ion),
        None => false,
    }
}

/// The ions among these that an operation acts on, in order. An `Err` is out of memory.
pub fn ions_for(
    alloc: Global,
    setting: &Setting,
    op: u32,
    ions: &[u32],
) -> Result<Vec<u32>, NoMemory>
    ensures { IfOk result (λ list. list.items ≡ filter (is_ion_of setting.now op) ions.now) }
{
    let mut list = Vec::new(alloc);
    for ion in ions {
        if acts_on(setting, op, *ion) {
            list.push(*ion)?;
        }
    }
    Ok(list)
}
