//! Traps.

ghost use Rattle.std.specs.Prelude.{IsTrue, All};
ghost use Rattle.trap_parts.specs.Names.{is_name as is_name_of};
ghost use Rattle.trap_parts.specs.Parts.{lists, names_of};
ghost use Rattle.trap_parts.specs.Build.{AreNames};

use crate::parts::{join, zones_of};
use qc_base::{End, Name};
use std::alloc::Global;
use std::test::Fail;
use trap_model::{Need, SegmentPart, Trap, TrapParts, ZonePart, is_name};

fn zones_named(zones: &[ZonePart]) -> bool
    ensures { IsTrue result → All (λ zone. IsTrue (is_name_of zone.name)) zones.now }
{
    for zone in zones {
        if !is_name(zone.name.bytes()) {
            return false;
        }
    }
    true
}

fn segments_named(segments: &[SegmentPart]) -> bool
    ensures { IsTrue result → All (λ segment. IsTrue (is_name_of segment.name)) segments.now }
{
    for segment in segments {
        if !is_name(segment.name.bytes()) {
            return false;
        }
    }
    true
}

fn junctions_named(junctions: &[Name]) -> bool
    ensures { IsTrue result → AreNames junctions.now }
{
    for junction in junctions {
        if !is_name(junction.bytes()) {
            return false;
        }
    }
    true
}

/// Whether the name of each zone, segment and junction has the form of a name.
pub fn are_named(parts: &TrapParts) -> bool
    ensures { IsTrue result → AreNames (names_of (lists parts.now)) }
{
    if !zones_named(parts.zones.as_slice()) {
        return false;
    }
    if !segments_named(parts.segments.as_slice()) {
        return false;
    }
    junctions_named(parts.junctions.as_slice())
}

/// The trap of these parts.
pub fn trap_of(alloc: Global, parts: TrapParts) -> Result<Trap, Fail> {
    if !are_named(&parts) {
        return Err(Fail::new("not a name"));
    }
    let trap = Trap::build(alloc, parts)?;
    Ok(trap)
}

/// Zones A, B and so on that nothing joins, each by how many ions it holds and what it is able to do.
pub fn zones_apart(alloc: Global, zones: &[(u32, &[Need])]) -> Result<Trap, Fail> {
    let parts = TrapParts {
        zones: zones_of(alloc, zones)?,
        segments: Vec::new(alloc),
        junctions: Vec::new(alloc),
        joins: Vec::new(alloc),
    };
    trap_of(alloc, parts)
}

/// Such zones, of which A is joined with B by segment s, which is one slot for one ion.
pub fn zones_at_a_slot(alloc: Global, zones: &[(u32, &[Need])]) -> Result<Trap, Fail> {
    let slot = SegmentPart {
        name: Name::from_bytes(alloc, b"s")?,
        slots: 1,
        load: 1,
    };
    let out = join(alloc, (b"A", End::B), (b"s", Some(End::A)))?;
    let back = join(alloc, (b"B", End::A), (b"s", Some(End::B)))?;
    let parts = TrapParts {
        zones: zones_of(alloc, zones)?,
        segments: Vec::from_array(alloc, [slot])?,
        junctions: Vec::new(alloc),
        joins: Vec::from_array(alloc, [out, back])?,
    };
    trap_of(alloc, parts)
}

/// Such zones, of which A is joined with that end of segment s, s with junction J, J with end a of
/// segment t, and t with B. The segments are s and t.
pub fn zones_at_a_junction(
    alloc: Global,
    zones: &[(u32, &[Need])],
    end: End,
    segments: [SegmentPart; 2],
) -> Result<Trap, Fail> {
    let other = match end {
        End::A => End::B,
        End::B => End::A,
    };
    let junction = Name::from_bytes(alloc, b"J")?;
    let mut joins = Vec::new(alloc);
    joins.push(join(alloc, (b"A", End::B), (b"s", Some(end)))?)?;
    joins.push(join(alloc, (b"s", other), (b"J", None))?)?;
    joins.push(join(alloc, (b"t", End::A), (b"J", None))?)?;
    joins.push(join(alloc, (b"B", End::A), (b"t", Some(End::B)))?)?;
    let parts = TrapParts {
        zones: zones_of(alloc, zones)?,
        segments: Vec::from_array(alloc, segments)?,
        junctions: Vec::from_array(alloc, [junction])?,
        joins,
    };
    trap_of(alloc, parts)
}
