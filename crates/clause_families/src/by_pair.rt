//! The families that run over places and pairs of ions.

ghost use Rattle.std.specs.Prelude.{◌≡◌, ◌∷◌, [], ◌++◌, OnOk};
ghost use Rattle.step_vars.specs.Families.{swap_in_zone, none_between, swap_turns, keeps_order, turns_order};
ghost use Rattle.clause_families.specs.Clauses.{staying_pair, stayers, no_others_between, by_pair, by_pairs, pairs_at_places};

use crate::by_channel::Times;
use crate::clauses::Clauses;
use crate::items::{at, nearer, ord, swap};
use qc_base::NoMemory;
use step_vars::{Cell, Claim};

/// What is said of a place and a pair of ions.
#[derive(Clone, Copy, Debug, PartialEq, Eq)]
pub enum PairRule {
    /// The two ions of a swap are in the zone.
    InZone,
    /// No third ion is between them.
    NoneBetween,
    /// A swap turns their order.
    Turns,
    /// Ions that stay keep their order, where there are so many zones.
    Stays(u32),
}

/// Adds that under these premises the order of a pair stays.
pub fn add_keeping(
    premises: &[Claim],
    times: Times,
    pair: Cell,
    out: &mut Clauses,
) -> Result<(), NoMemory>
    ensures { OnOk result (out.new ≡ out.old ++ keeps_order premises.now times.before times.time pair) }
{
    let before = ord(pair.row, pair.col, times.before);
    let after = ord(pair.row, pair.col, times.time);
    out.push_both(premises, &[Claim::not_so(before), Claim::so(after)])?;
    out.push_both(premises, &[Claim::so(before), Claim::not_so(after)])
}

/// Adds that under these premises the order of a pair turns.
pub fn add_turning(
    premises: &[Claim],
    times: Times,
    pair: Cell,
    out: &mut Clauses,
) -> Result<(), NoMemory>
    ensures { OnOk result (out.new ≡ out.old ++ turns_order premises.now times.before times.time pair) }
{
    let before = ord(pair.row, pair.col, times.before);
    let after = ord(pair.row, pair.col, times.time);
    out.push_both(premises, &[Claim::not_so(before), Claim::not_so(after)])?;
    out.push_both(premises, &[Claim::so(before), Claim::so(after)])
}

// Adds that both ions of a swap are in the zone.
fn add_in_zone(times: Times, zone: u32, pair: Cell, out: &mut Clauses) -> Result<(), NoMemory>
    ensures { OnOk result (out.new ≡ out.old ++ swap_in_zone times.before times.time zone pair) }
{
    let swapped = Claim::not_so(swap(pair.row, pair.col, zone, times.time));
    out.push(&[swapped, Claim::so(at(pair.row, zone, times.before))])?;
    out.push(&[swapped, Claim::so(at(pair.col, zone, times.before))])
}

// Adds that this ion is not between them.
fn add_not_between(
    times: Times,
    zone: u32,
    pair: Cell,
    third: u32,
    out: &mut Clauses,
) -> Result<(), NoMemory>
    ensures { OnOk result (out.new ≡ out.old ++ none_between times.before times.time zone pair third) }
{
    let swapped = Claim::not_so(swap(pair.row, pair.col, zone, times.time));
    let there = Claim::not_so(at(third, zone, times.before));
    let after_first = nearer(pair.row, third, times.before).denied();
    let before_second = nearer(third, pair.col, times.before).denied();
    out.push(&[swapped, there, after_first, before_second])?;
    let after_second = nearer(pair.col, third, times.before).denied();
    let before_first = nearer(third, pair.row, times.before).denied();
    out.push(&[swapped, there, after_second, before_first])
}

// The same for all other ions.
fn add_none_between(
    times: Times,
    ions: &[u32],
    zone: u32,
    pair: Cell,
    out: &mut Clauses,
) -> Result<(), NoMemory>
    ensures { OnOk result (out.new
        ≡ out.old ++ no_others_between ions.now times.before times.time zone pair) }
{
    for third in ions {
        if *third != pair.row && *third != pair.col {
            add_not_between(times, zone, pair, *third, out)?;
        }
    }
    Ok(())
}

// Adds that a swap turns the order.
fn add_swapped(times: Times, zone: u32, pair: Cell, out: &mut Clauses) -> Result<(), NoMemory>
    ensures { OnOk result (out.new ≡ out.old ++ swap_turns times.before times.time zone pair) }
{
    let swapped = Claim::not_so(swap(pair.row, pair.col, zone, times.time));
    let before = ord(pair.row, pair.col, times.before);
    let after = ord(pair.row, pair.col, times.time);
    out.push(&[swapped, Claim::not_so(before), Claim::not_so(after)])?;
    out.push(&[swapped, Claim::so(before), Claim::so(after)])
}

// Adds that the order of a pair that stays in a place stays; a swap may change it.
fn add_staying(
    zones: u32,
    times: Times,
    place: u32,
    pair: Cell,
    out: &mut Clauses,
) -> Result<(), NoMemory>
    ensures { OnOk result (out.new ≡ out.old ++ stayers zones times.before times.time place pair) }
{
    let first_before = Claim::not_so(at(pair.row, place, times.before));
    let second_before = Claim::not_so(at(pair.col, place, times.before));
    let first_after = Claim::not_so(at(pair.row, place, times.time));
    let second_after = Claim::not_so(at(pair.col, place, times.time));
    if place < zones {
        let swapped = Claim::so(swap(pair.row, pair.col, place, times.time));
        let premises = [
            first_before,
            second_before,
            first_after,
            second_after,
            swapped,
        ];
        add_keeping(&premises, times, pair, out)
    } else {
        let premises = [first_before, second_before, first_after, second_after];
        add_keeping(&premises, times, pair, out)
    }
}

// Adds what is said of a place and a pair.
fn add_pair(
    rule: PairRule,
    times: Times,
    ions: &[u32],
    place: u32,
    pair: Cell,
    out: &mut Clauses,
) -> Result<(), NoMemory>
    ensures { OnOk result (out.new ≡ out.old ++ by_pair rule ions.now times.before times.time place pair) }
{
    match rule {
        PairRule::InZone => add_in_zone(times, place, pair, out),
        PairRule::NoneBetween => add_none_between(times, ions, place, pair, out),
        PairRule::Turns => add_swapped(times, place, pair, out),
        PairRule::Stays(zones) => add_staying(zones, times, place, pair, out),
    }
}

// The same for all pairs.
fn add_pairs(
    rule: PairRule,
    times: Times,
    ions: &[u32],
    pairs: &[Cell],
    place: u32,
    out: &mut Clauses,
) -> Result<(), NoMemory>
    ensures { OnOk result (out.new ≡ out.old ++ by_pairs rule times ions.now pairs.now place) }
{
    for pair in pairs {
        add_pair(rule, times, ions, place, *pair, out)?;
    }
    Ok(())
}

/// Adds the clauses by the rule for each place with each pair of ions, place after place. The ions are those
/// that may be between the two. An `Err` is out of memory; nothing is said of `out` then.
pub fn add_pairs_at_places(
    rule: PairRule,
    times: Times,
    ions: &[u32],
    pairs: &[Cell],
    places: &[u32],
    out: &mut Clauses,
) -> Result<(), NoMemory>
    ensures { OnOk result (out.new ≡ out.old ++ pairs_at_places rule times ions.now pairs.now places.now) }
{
    for place in places {
        add_pairs(rule, times, ions, pairs, *place, out)?;
    }
    Ok(())
}
