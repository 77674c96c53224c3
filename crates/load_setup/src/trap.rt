//! The trap of each load.

ghost use Rattle.std.specs.Prelude.{◌≡◌, ◌+◌, ◌<◌, ◌≤◌, ◌++◌, ◌∷◌, [], map, Some, IfOk, OnOk};
ghost use Rattle.std.specs.List.{flat_map, range_with_len};
ghost use Rattle.trap_parts.specs.Parts.{lists};
ghost use Rattle.trap_parts.specs.Build.{Fails, build_of};
ghost use Rattle.load_setup.specs.Setup.{digit, zone_part, segment_part, end_of, joins_at, row_of, generated_trap};

use qc_base::{End, Name, NoMemory};
use std::alloc::Global;
use trap_model::{EndName, JoinPart, SegmentPart, Trap, TrapFault, TrapParts, ZonePart};

// A letter and a digit.
fn numbered(alloc: Global, letter: u8, number: u8) -> Result<Name, NoMemory>
    requires { number < 10 }
    ensures { IfOk result (λ name. name ≡ letter ∷ digit number) }
{
    Name::from_bytes(alloc, &[letter, b'0' + number])
}

fn zone(alloc: Global, number: u8) -> Result<ZonePart, NoMemory>
    requires { number < 10 }
    ensures { IfOk result (λ zone. zone ≡ zone_part number) }
{
    Ok(ZonePart {
        name: numbered(alloc, b'Z', number)?,
        capacity: 12,
        one: true,
        two: true,
        read: true,
    })
}

#[tactic(auto, using(crate::proofs::Ranges::map_range_more))]
fn zones(alloc: Global, count: u8) -> Result<Vec<ZonePart>, NoMemory>
    requires { count ≤ 10 }
    ensures { IfOk result (λ zones. zones.items ≡ map zone_part (range_with_len 0 count)) }
{
    let mut zones = Vec::new(alloc);
    for number in 0..count {
        zones.push(zone(alloc, number)?)?;
    }
    Ok(zones)
}

fn segment(alloc: Global, number: u8) -> Result<SegmentPart, NoMemory>
    requires { number < 10 }
    ensures { IfOk result (λ segment. segment ≡ segment_part number) }
{
    Ok(SegmentPart {
        name: numbered(alloc, b's', number)?,
        slots: 1,
        load: 1,
    })
}

#[tactic(auto, using(crate::proofs::Ranges::map_range_more))]
fn segments(alloc: Global, count: u8) -> Result<Vec<SegmentPart>, NoMemory>
    requires { count ≤ 10 }
    ensures { IfOk result (λ segments. segments.items ≡ map segment_part (range_with_len 0 count)) }
{
    let mut segments = Vec::new(alloc);
    for number in 0..count {
        segments.push(segment(alloc, number)?)?;
    }
    Ok(segments)
}

fn end_of(alloc: Global, letter: u8, number: u8, end: End) -> Result<EndName, NoMemory>
    requires { number < 10 }
    ensures { IfOk result (λ name. name ≡ end_of (letter ∷ digit number) end) }
{
    Ok(EndName {
        name: numbered(alloc, letter, number)?,
        end: Some(end),
    })
}

// A segment's joins, with the zone of its number and with the next.
fn push_joins(alloc: Global, number: u8, joins: &mut Vec<JoinPart>) -> Result<(), NoMemory>
    requires { number + 1 < 10 }
    ensures { OnOk result (joins.new.items ≡ joins.old.items ++ joins_at number) }
{
    joins.push(JoinPart {
        first: end_of(alloc, b'Z', number, End::B)?,
        second: end_of(alloc, b's', number, End::A)?,
    })?;
    joins.push(JoinPart {
        first: end_of(alloc, b's', number, End::B)?,
        second: end_of(alloc, b'Z', number + 1, End::A)?,
    })?;
    Ok(())
}

#[tactic(auto, using(crate::proofs::Ranges::flat_map_range_more))]
fn joins(alloc: Global, count: u8) -> Result<Vec<JoinPart>, NoMemory>
    requires { count < 10 }
    ensures { IfOk result (λ joins. joins.items ≡ flat_map joins_at (range_with_len 0 count)) }
{
    let mut joins = Vec::new(alloc);
    for number in 0..count {
        push_joins(alloc, number, &mut joins)?;
    }
    Ok(joins)
}

// So many segments, and one more zones, in a row.
fn row(alloc: Global, count: u8) -> Result<TrapParts, NoMemory>
    requires { count < 10 }
    ensures { IfOk result (λ parts. lists parts ≡ row_of count) }
{
    Ok(TrapParts {
        zones: zones(alloc, count + 1)?,
        segments: segments(alloc, count)?,
        junctions: Vec::new(alloc),
        joins: joins(alloc, count)?,
    })
}

/// Six zones in a row.
pub fn trap_of_six(alloc: Global) -> Result<Trap, NoMemory>
    ensures { IfOk result (λ trap. trap ≡ generated_trap) }
{
    let parts = row(alloc, 5)?;
    match Trap::build(alloc, parts) {
        Ok(trap) => Ok(trap),
        Err(fault) => Err(no_memory(fault)),
    }
}

// The parts of the trap pass all tests, so only memory may run out.
fn no_memory(fault: TrapFault) -> NoMemory
    requires { Fails fault (build_of generated_trap) }
{
    match fault {
        TrapFault::NoMemory => NoMemory,
        _ => unreachable!(),
    }
}
