//! What is said of the faults of a trap's file.

ghost use Rattle.std.specs.Prelude.{◌≡◌, ◌≤◌, ◌∷◌, length, codes};
ghost use Rattle.run_answers.specs.TrapLines.{section_said, key_said, counted_word, build_said, trap_said};

use crate::line::Line;
use trap_model::{Counted, TrapFault};
use trap_read::{KeyAt, Section, TrapText};

/// The section of a key, and the row where the section has rows.
fn section_line<'a>(section: Section, row: u32) -> Line<'a>
    ensures said { result ≡ codes "trap: " ∷ section_said section row }
    ensures few { length result ≤ 3 }
{
    let line = Line::start(b"trap: ");
    let row = row as u64;
    match section {
        Section::Top => line.text(b"top"),
        Section::Zone => line.text(b"zone ").number(row),
        Section::Segment => line.text(b"segment ").number(row),
        Section::Junction => line.text(b"junction ").number(row),
        Section::Join => line.text(b"join ").number(row),
        Section::Place => line.text(b"place"),
    }
}

/// What is wrong with a key.
fn key_line<'a>(at: &'a KeyAt, what: &'static [u8]) -> Line<'a>
    ensures { result ≡ key_said at.now what.now }
{
    section_line(at.section, at.row)
        .text(b" key ")
        .name(at.key.bytes())
        .text(b": ")
        .text(what)
}

/// The word for what there are too many of.
fn counted_word(what: Counted) -> &'static [u8]
    ensures { result.now ≡ counted_word what }
{
    match what {
        Counted::Zones => b"zones",
        Counted::Segments => b"segments",
        Counted::Junctions => b"junctions",
        Counted::Slots => b"slots",
    }
}

/// Parts that are no trap.
fn build_line<'a>(fault: &'a TrapFault) -> Line<'a>
    ensures { result ≡ build_said fault.now }
{
    match fault {
        TrapFault::NoZone => Line::start(b"trap: no zone"),
        TrapFault::TooMany { what } => Line::start(b"trap: too many ").text(counted_word(*what)),
        TrapFault::Double { name } => Line::start(b"trap: name ")
            .name(name.bytes())
            .text(b" twice"),
        TrapFault::Capacity { zone } => Line::start(b"trap: capacity of zone ").name(zone.bytes()),
        TrapFault::Length { segment } => {
            Line::start(b"trap: length of segment ").name(segment.bytes())
        }
        TrapFault::Load { segment } => Line::start(b"trap: load of segment ").name(segment.bytes()),
        TrapFault::Unknown { row } => Line::start(b"trap: join ").number(*row).text(b" unknown"),
        TrapFault::Pair { row } => Line::start(b"trap: join ").number(*row).text(b" pair"),
        TrapFault::EndTaken { row } => Line::start(b"trap: join ").number(*row).text(b" taken"),
        TrapFault::Arms { junction } => {
            Line::start(b"trap: arms of junction ").name(junction.bytes())
        }
        TrapFault::NoMemory => Line::start(b"no memory"),
    }
}

/// A file that is not the description of a trap.
pub fn trap_line<'a>(fault: &'a TrapText) -> Line<'a>
    ensures { result ≡ trap_said fault.now }
{
    match fault {
        TrapText::Toml => Line::start(b"trap: not TOML"),
        TrapText::Extra { key } => key_line(key, b"unknown"),
        TrapText::Missing { key } => key_line(key, b"missing"),
        TrapText::Kind { key } => key_line(key, b"wrong kind"),
        TrapText::Range { key } => key_line(key, b"out of range"),
        TrapText::Trap(fault) => build_line(fault),
        TrapText::NoMemory => Line::start(b"no memory"),
    }
}
