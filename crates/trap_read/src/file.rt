//! The trap of a file.

ghost use Rattle.std.specs.Prelude.{◌≡◌, Ok, Err, length, IfOk, IfSome};
ghost use Rattle.std.specs.Option.{option_map, ok_or};
ghost use Rattle.toml.specs.View.{table_view, items_view};
ghost use Rattle.trap_parts.specs.Parts.{lists, names_of};
ghost use Rattle.trap_parts.specs.Build.{AreNames, build_of};
ghost use Rattle.trap_read.specs.Answers.{Gives, Fails};
ghost use Rattle.trap_read.specs.Keys.{row_view};
ghost use Rattle.trap_read.specs.TrapFile.{table_of, tops_of, tops_view, parts_of, refusal_of, as_refusal, file_of, trap_of};

use crate::fault::{Section, TrapText};
use crate::labels::{given_of, judge_place};
use crate::row::Row;
use crate::rows::parts_of;
use std::alloc::Global;
use toml::{Table, Value};
use trap_model::{GivenLabels, Trap, TrapFault, TrapParts};

/// What is under the top keys.
#[derive(Clone, Copy)]
pub(crate) struct Tops<'a> {
    pub(crate) zones: &'a [Value],
    pub(crate) segments: &'a [Value],
    pub(crate) junctions: &'a [Value],
    pub(crate) joins: &'a [Value],
    pub(crate) place: Option<&'a Table>,
}

// The table that the bytes are.
fn table_of(alloc: Global, bytes: &[u8]) -> Result<Table, TrapText>
    ensures { Gives table_view result (ok_or (table_of bytes.now) TrapText.Toml) }
{
    match toml::table_from_slice(alloc, bytes) {
        Ok(table) => Ok(table),
        Err(error) => {
            if error.is_memory() {
                Err(TrapText::NoMemory)
            } else {
                Err(TrapText::Toml)
            }
        }
    }
}

// No top key is unknown, and then each is of its kind.
#[tactic(auto, unfolding(crate::specs::TrapFile::tops_of))]
fn tops_of<'a>(alloc: Global, top: Row<'a>) -> Result<Tops<'a>, TrapText>
    ensures { Gives tops_view result (tops_of (row_view top.entry)) }
{
    top.only_known(alloc)?;
    let zones = top.rows(alloc, "zone")?;
    let segments = top.rows(alloc, "segment")?;
    let junctions = top.rows(alloc, "junction")?;
    let joins = top.rows(alloc, "join")?;
    let place = top.table(alloc, "place")?;
    Ok(Tops {
        zones,
        segments,
        junctions,
        joins,
        place,
    })
}

// The parts of all rows, by section and in file order.
#[tactic(auto, unfolding(crate::specs::TrapFile::parts_of))]
fn parts_in(alloc: Global, tops: Tops) -> Result<TrapParts, TrapText>
    ensures { Gives lists result (parts_of (tops_view tops.entry)) }
{
    let zones = parts_of(alloc, Section::Zone, tops.zones)?;
    let segments = parts_of(alloc, Section::Segment, tops.segments)?;
    let junctions = parts_of(alloc, Section::Junction, tops.junctions)?;
    let joins = parts_of(alloc, Section::Join, tops.joins)?;
    Ok(TrapParts {
        zones,
        segments,
        junctions,
        joins,
    })
}

// The refusal that a fault of building is.
fn refusal_of(fault: TrapFault) -> TrapText
    ensures { result ≡ refusal_of fault }
{
    match fault {
        TrapFault::NoMemory => TrapText::NoMemory,
        fault => TrapText::Trap(fault),
    }
}

// The trap of the parts.
fn built(alloc: Global, parts: TrapParts) -> Result<Trap, TrapText>
    requires { AreNames (names_of (lists parts)) }
    ensures { Gives (λ trap. trap) result (as_refusal (build_of (lists parts))) }
{
    match Trap::build(alloc, parts) {
        Ok(trap) => Ok(trap),
        Err(fault) => Err(refusal_of(fault)),
    }
}

// The trap of a table, and the labels for its zones.
#[tactic(auto, unfolding(crate::specs::TrapFile::file_of))]
fn file_of(alloc: Global, table: &Table) -> Result<(Trap, Option<GivenLabels>), TrapText>
    ensures { Gives (λ file. file) result (file_of (table_view table.now)) }
{
    let tops = tops_of(
        alloc,
        Row {
            section: Section::Top,
            number: 0,
            table,
        },
    )?;
    let parts = parts_in(alloc, tops)?;
    judge_place(alloc, parts.zones.as_slice(), tops.place)?;
    let trap = built(alloc, parts)?;
    let given = given_of(alloc, trap.zones(), tops.place)?;
    Ok((trap, given))
}

/// The trap of a file and, where it has the table `place`, the labels for each zone, or the first refusal, unless
/// memory runs out.
#[tactic(auto, unfolding(crate::specs::TrapFile::trap_of))]
pub fn read(alloc: Global, bytes: &[u8]) -> Result<(Trap, Option<GivenLabels>), TrapText>
    ensures { Gives (λ file. file) result (trap_of bytes.now) }
{
    let table = table_of(alloc, bytes)?;
    file_of(alloc, &table)
}
