//! The table `place`.

ghost use Rattle.std.specs.Prelude.{◌≡◌, map, length, Ok, Err, IfOk};
ghost use Rattle.std.specs.Option.{option_map};
ghost use Rattle.toml.specs.View.{view, table_view};
ghost use Rattle.trap_read.specs.Answers.{Gives, Fails};
ghost use Rattle.trap_read.specs.Labels.{place_key, has_name, AreNamesOf, keys_pass, place_passes, labels_under, labels_of, given_of};

use crate::fault::{KeyAt, Section, TrapText};
use crate::texts::{is_texts, texts_in};
use qc_base::{Name, NoMemory};
use std::alloc::Global;
use std::collections::BTreeSet;
use toml::Table;
use trap_model::{GivenLabels, Labels, ZonePart};

fn place_key(alloc: Global, key: &str) -> Result<KeyAt, NoMemory>
    ensures { IfOk result (λ k. k ≡ place_key key.now) }
{
    Ok(KeyAt {
        section: Section::Place,
        row: 0,
        key: Name::from_bytes(alloc, key.as_bytes())?,
    })
}

// The names of the zones.
fn names_of(alloc: Global, zones: &[ZonePart]) -> Result<BTreeSet<&[u8]>, NoMemory>
    ensures { IfOk result (AreNamesOf zones.now) }
{
    let mut names = BTreeSet::new(alloc);
    for zone in zones {
        names.insert(zone.name.bytes())?;
    }
    Ok(names)
}

// Whether the name is in the set.
#[tactic(auto, unfolding(crate::specs::Labels::has_name))]
fn has_name(names: &BTreeSet<&[u8]>, name: &[u8]) -> bool
    ensures { result ≡ has_name names.now name.now }
{
    names.contains(name)
}

// Each key is one of the names, and an array of strings is under it.
fn judge_keys(alloc: Global, names: &BTreeSet<&[u8]>, table: &Table) -> Result<(), TrapText>
    ensures { Gives (λ x. x) result (keys_pass (has_name names.now) (table_view table.now)) }
{
    for (key, value) in table {
        if !has_name(names, key.as_bytes()) {
            return Err(TrapText::Range {
                key: place_key(alloc, key.as_str())?,
            });
        }
        if !is_texts(value) {
            return Err(TrapText::Kind {
                key: place_key(alloc, key.as_str())?,
            });
        }
    }
    Ok(())
}

/// The tests of the table `place`, where the file has it. They take no longer where there are more zones than a
/// trap may have.
pub(crate) fn judge_place(
    alloc: Global,
    zones: &[ZonePart],
    place: Option<&Table>,
) -> Result<(), TrapText>
    ensures { Gives (λ x. x) result (place_passes zones.now (option_map (λ table. table_view table.now) place.entry)) }
{
    match place {
        Some(table) => {
            let names = names_of(alloc, zones)?;
            judge_keys(alloc, &names, table)
        }
        None => Ok(()),
    }
}

// The labels under a name, none where it has no key.
fn labels_under(alloc: Global, name: &[u8], table: &Table) -> Result<Labels, NoMemory>
    ensures { IfOk result (λ labels. labels ≡ labels_under name.now (table_view table.now)) }
{
    for (key, value) in table {
        if key.as_bytes() == name {
            return texts_in(alloc, value);
        }
    }
    Ok(Labels::from_vec(Vec::new(alloc)))
}

// A list for each zone.
fn labels_of(alloc: Global, zones: &[ZonePart], table: &Table) -> Result<GivenLabels, NoMemory>
    ensures { IfOk result (λ given. given ≡ labels_of zones.now (table_view table.now)) }
{
    let mut given = Vec::new(alloc);
    for zone in zones {
        given.push(labels_under(alloc, zone.name.bytes(), table)?)?;
    }
    Ok(GivenLabels::from_vec(given))
}

/// The labels for each zone, where the file has the table `place`.
pub(crate) fn given_of(
    alloc: Global,
    zones: &[ZonePart],
    place: Option<&Table>,
) -> Result<Option<GivenLabels>, NoMemory>
    ensures { IfOk result (λ given.
        given ≡ given_of zones.now (option_map (λ table. table_view table.now) place.entry)) }
{
    match place {
        Some(table) => Ok(Some(labels_of(alloc, zones, table)?)),
        None => Ok(None),
    }
}
