//! Parts of traps.

use qc_base::{End, Name, NoMemory};
use std::alloc::Global;
use trap_model::{EndName, JoinPart, Need, SegmentPart, ZonePart};

/// All that a zone may be able to do.
pub const ALL: [Need; 3] = [Need::One, Need::Two, Need::Read];

/// A zone by its name, how many ions it holds, and what it is able to do.
pub fn zone(
    alloc: Global,
    name: &[u8],
    capacity: u32,
    able: &[Need],
) -> Result<ZonePart, NoMemory> {
    Ok(ZonePart {
        name: Name::from_bytes(alloc, name)?,
        capacity,
        one: able.contains(&Need::One),
        two: able.contains(&Need::Two),
        read: able.contains(&Need::Read),
    })
}

/// Zones A, B and so on, each by how many ions it holds and what it is able to do.
pub fn zones_of(alloc: Global, rows: &[(u32, &[Need])]) -> Result<Vec<ZonePart>, NoMemory> {
    let mut zones = Vec::new(alloc);
    let mut letter = b'A';
    for (capacity, able) in rows {
        zones.push(zone(alloc, &[letter], *capacity, able)?)?;
        letter = letter.saturating_add(1);
    }
    Ok(zones)
}

/// A segment by its name, how many slots it has, and how many ions each holds.
pub fn segment(alloc: Global, name: &[u8], slots: u32, load: u32) -> Result<SegmentPart, NoMemory> {
    Ok(SegmentPart {
        name: Name::from_bytes(alloc, name)?,
        slots,
        load,
    })
}

fn end_name(alloc: Global, name: &[u8], end: Option<End>) -> Result<EndName, NoMemory> {
    Ok(EndName {
        name: Name::from_bytes(alloc, name)?,
        end,
    })
}

/// A join of an end of a zone or of a segment with an end of a segment or a junction, which has no end.
pub fn join(
    alloc: Global,
    first: (&[u8], End),
    second: (&[u8], Option<End>),
) -> Result<JoinPart, NoMemory> {
    Ok(JoinPart {
        first: end_name(alloc, first.0, Some(first.1))?,
        second: end_name(alloc, second.0, second.1)?,
    })
}
