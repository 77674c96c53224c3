//! The rows of a trap file.

ghost use Rattle.std.specs.Prelude.{◌≡◌, ℕ, List, Result};
ghost use Rattle.toml.specs.View.{table_view, items_view};
ghost use Rattle.trap_read.specs.declared.fault.TrapText.{TrapText};
ghost use Rattle.trap_read.specs.Answers.{Gives, Fails};
ghost use Rattle.trap_read.specs.Keys.{RowValue, row_view};
ghost use Rattle.trap_read.specs.Rows.{zone_of, segment_of, junction_of, join_of, row_number, rows_from, with_front};

use crate::fault::{Section, TrapText};
use crate::row::Row;
use qc_base::Name;
use std::alloc::Global;
use toml::Value;
use trap_model::{JoinPart, SegmentPart, ZonePart};

/// A part of a trap that a row of the file is.
pub(crate) trait Part: Sized + Drop {
    ghost part_of: { RowValue → Result Self TrapText };

    /// The part that the row is, or the row's first refusal.
    fn part_of(alloc: Global, row: Row) -> Result<Self, TrapText>
        ensures { Gives (λ part. part) result (part_of (row_view row.entry)) };
}

impl Part for ZonePart {
    ghost part_of = { zone_of };

    #[tactic(auto, unfolding(crate::specs::Rows::zone_of))]
    fn part_of(alloc: Global, row: Row) -> Result<ZonePart, TrapText> {
        row.only_known(alloc)?;
        let name = row.name(alloc, "name")?;
        let capacity = row.number(alloc, "capacity")?;
        let can = row.abilities(alloc, "can")?;
        Ok(ZonePart {
            name,
            capacity,
            one: can.one,
            two: can.two,
            read: can.read,
        })
    }
}

impl Part for SegmentPart {
    ghost part_of = { segment_of };

    #[tactic(auto, unfolding(crate::specs::Rows::segment_of))]
    fn part_of(alloc: Global, row: Row) -> Result<SegmentPart, TrapText> {
        row.only_known(alloc)?;
        let name = row.name(alloc, "name")?;
        let slots = row.number(alloc, "slots")?;
        let load = row.number(alloc, "load")?;
        Ok(SegmentPart { name, slots, load })
    }
}

// A junction is its name.
impl Part for Name {
    ghost part_of = { junction_of };

    #[tactic(auto, unfolding(crate::specs::Rows::junction_of))]
    fn part_of(alloc: Global, row: Row) -> Result<Name, TrapText> {
        row.only_known(alloc)?;
        row.name(alloc, "name")
    }
}

impl Part for JoinPart {
    ghost part_of = { join_of };

    #[tactic(auto, unfolding(crate::specs::Rows::join_of))]
    fn part_of(alloc: Global, row: Row) -> Result<JoinPart, TrapText> {
        row.only_known(alloc)?;
        row.ends(alloc, "ends")
    }
}

// The number of the row at an index: one more, as far as a number goes.
fn row_number(index: usize) -> u32
    ensures { result ≡ row_number index }
{
    if index < u32::MAX as usize {
        index as u32 + 1
    } else {
        u32::MAX
    }
}

/// The parts that the rows of a section are, in file order, or the first refusal.
pub(crate) fn parts_of<P: Part>(
    alloc: Global,
    section: Section,
    rows: &[Value],
) -> Result<Vec<P>, TrapText>
    ensures { Gives (λ parts. parts.items) result (rows_from P.part_of section 0 (items_view rows.now)) }
{
    let mut parts = Vec::new(alloc);
    for (index, row) in rows.iter().enumerate() {
        if let Some(table) = row.as_table() {
            let number = row_number(index);
            parts.push(P::part_of(
                alloc,
                Row {
                    section,
                    number,
                    table,
                },
            )?)?;
        }
    }
    Ok(parts)
}
