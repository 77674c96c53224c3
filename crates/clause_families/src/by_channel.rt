//! The families that run over channels.

ghost use Rattle.std.specs.Prelude.{◌≡◌, ◌∷◌, [], ◌++◌, map, OnOk, IfOk};
ghost use Rattle.clause_families.specs.Clauses.{by_ion, ions_at_channels, by_two_ions, with_others, two_ions_at, two_ions_at_channels, by_passing_pair, pairs_at, pairs_at_channels, passers};

use crate::by_pair::{add_keeping, add_turning};
use crate::clauses::Clauses;
use crate::items::{at, leaves, nearer_to, uses};
use qc_base::NoMemory;
use std::alloc::Global;
use step_vars::{Cell, Claim, NumberedChannel};

/// The times between which a step leads.
#[derive(Clone, Copy, Debug, PartialEq, Eq)]
pub struct Times {
    /// The time before the step.
    pub before: u32,
    /// The time after it, which is also the number of the step.
    pub time: u32,
}

/// What is said of a channel and an ion.
#[derive(Clone, Copy, Debug, PartialEq, Eq)]
pub enum IonRule {
    /// An ion that passes was where the channel begins.
    FromSource,
    /// It is then where the channel ends.
    ToTarget,
    /// The channel is used.
    UsesChannel,
    /// Where the channel is used, the ion was not where it ends.
    FindsEmptySlot,
    /// Where the channel is used, the ion was not where it begins, or passes.
    EmptiesSlot,
}

/// What is said of a channel and two ions.
#[derive(Clone, Copy, Debug, PartialEq, Eq)]
pub enum TwoIonRule {
    /// With an ion that splits off go all that are nearer to the exit.
    GoesAlong,
    /// An ion that merges is nearer to its end than those that were there.
    MergesOutside,
}

// Adds the clause of a channel and an ion.
fn add_ion(
    rule: IonRule,
    times: Times,
    c: &NumberedChannel,
    ion: u32,
    out: &mut Clauses,
) -> Result<(), NoMemory>
    ensures { OnOk result (out.new ≡ out.old ++ by_ion rule times.before times.time c.now ion ∷ []) }
{
    let from = c.channel.from.0;
    let to = c.channel.to.0;
    let used = uses(c.number, times.time);
    let leaving = leaves(ion, c.number, times.time);
    match rule {
        IonRule::FromSource => out.push(&[
            Claim::not_so(leaving),
            Claim::so(at(ion, from, times.before)),
        ]),
        IonRule::ToTarget => out.push(&[
            Claim::not_so(leaving),
            Claim::so(at(ion, to, times.time)),
        ]),
        IonRule::UsesChannel => out.push(&[Claim::not_so(leaving), Claim::so(used)]),
        IonRule::FindsEmptySlot => out.push(&[
            Claim::not_so(used),
            Claim::not_so(at(ion, to, times.before)),
        ]),
        IonRule::EmptiesSlot => out.push(&[
            Claim::not_so(used),
            Claim::not_so(at(ion, from, times.before)),
            Claim::so(leaving),
        ]),
    }
}

// The same for all ions.
fn add_ions(
    rule: IonRule,
    times: Times,
    ions: &[u32],
    c: &NumberedChannel,
    out: &mut Clauses,
) -> Result<(), NoMemory>
    ensures { OnOk result (out.new ≡ out.old ++ map (by_ion rule times.before times.time c.now) ions.now) }
{
    for ion in ions {
        add_ion(rule, times, c, *ion, out)?;
    }
    Ok(())
}

/// Adds one clause by the rule for each channel with each ion, channel after channel.
/// An `Err` is out of memory; nothing is said of `out` then.
pub fn add_ions_at_channels(
    rule: IonRule,
    times: Times,
    ions: &[u32],
    channels: &[NumberedChannel],
    out: &mut Clauses,
) -> Result<(), NoMemory>
    ensures { OnOk result (out.new ≡ out.old ++ ions_at_channels rule times ions.now channels.now) }
{
    for c in channels {
        add_ions(rule, times, ions, c, out)?;
    }
    Ok(())
}

// Adds the clause of a channel and two ions.
fn add_two(
    rule: TwoIonRule,
    times: Times,
    c: &NumberedChannel,
    ion: u32,
    other: u32,
    out: &mut Clauses,
) -> Result<(), NoMemory>
    ensures { OnOk result (out.new
        ≡ out.old ++ by_two_ions rule times.before times.time c.now ion other ∷ []) }
{
    let leaving = Claim::not_so(leaves(ion, c.number, times.time));
    match rule {
        TwoIonRule::GoesAlong => out.push(&[
            leaving,
            Claim::not_so(at(other, c.channel.from.0, times.before)),
            nearer_to(c.channel.from_end, other, ion, times.before).denied(),
            Claim::so(leaves(other, c.number, times.time)),
        ]),
        TwoIonRule::MergesOutside => out.push(&[
            leaving,
            Claim::not_so(at(other, c.channel.to.0, times.before)),
            nearer_to(c.channel.to_end, ion, other, times.time),
        ]),
    }
}

// The same for all other ions.
fn add_others(
    rule: TwoIonRule,
    times: Times,
    ions: &[u32],
    c: &NumberedChannel,
    ion: u32,
    out: &mut Clauses,
) -> Result<(), NoMemory>
    ensures { OnOk result (out.new ≡ out.old ++ with_others rule times ions.now c.now ion) }
{
    for other in ions {
        if *other != ion {
            add_two(rule, times, c, ion, *other, out)?;
        }
    }
    Ok(())
}

// The same for all ions.
fn add_all_others(
    rule: TwoIonRule,
    times: Times,
    ions: &[u32],
    c: &NumberedChannel,
    out: &mut Clauses,
) -> Result<(), NoMemory>
    ensures { OnOk result (out.new ≡ out.old ++ two_ions_at rule times ions.now c.now) }
{
    for ion in ions {
        add_others(rule, times, ions, c, *ion, out)?;
    }
    Ok(())
}

/// Adds one clause by the rule for each channel with each two ions in both orders, channel after channel.
/// An `Err` is out of memory; nothing is said of `out` then.
pub fn add_two_ions_at_channels(
    rule: TwoIonRule,
    times: Times,
    ions: &[u32],
    channels: &[NumberedChannel],
    out: &mut Clauses,
) -> Result<(), NoMemory>
    ensures { OnOk result (out.new ≡ out.old ++ two_ions_at_channels rule times ions.now channels.now) }
{
    for c in channels {
        add_all_others(rule, times, ions, c, out)?;
    }
    Ok(())
}

// The claims that a channel is not used, or that one of the ions passes.
fn passers_of(
    alloc: Global,
    time: u32,
    ions: &[u32],
    c: &NumberedChannel,
) -> Result<Vec<Claim>, NoMemory>
    ensures { IfOk result (λ claims. claims.items ≡ passers time ions.now c.now) }
{
    let mut claims = Vec::new(alloc);
    claims.push(Claim::not_so(uses(c.number, time)))?;
    for ion in ions {
        claims.push(Claim::so(leaves(*ion, c.number, time)))?;
    }
    Ok(claims)
}

/// Adds one clause for each channel: if it is used, one of the ions passes.
/// An `Err` is out of memory; nothing is said of `out` then.
pub fn add_passers(
    alloc: Global,
    time: u32,
    ions: &[u32],
    channels: &[NumberedChannel],
    out: &mut Clauses,
) -> Result<(), NoMemory>
    ensures { OnOk result (out.new ≡ out.old ++ map (passers time ions.now) channels.now) }
{
    for c in channels {
        let claims = passers_of(alloc, time, ions, c)?;
        out.push(&claims)?;
    }
    Ok(())
}

// Adds the order of a pair that passes through a channel.
fn add_passing_pair(
    times: Times,
    c: &NumberedChannel,
    pair: Cell,
    out: &mut Clauses,
) -> Result<(), NoMemory>
    ensures { OnOk result (out.new ≡ out.old ++ by_passing_pair times.before times.time c.now pair) }
{
    let premises = [
        Claim::not_so(leaves(pair.row, c.number, times.time)),
        Claim::not_so(leaves(pair.col, c.number, times.time)),
    ];
    if c.channel.from_end == c.channel.to_end {
        add_turning(&premises, times, pair, out)
    } else {
        add_keeping(&premises, times, pair, out)
    }
}

// The same for all pairs.
fn add_passing_pairs(
    times: Times,
    pairs: &[Cell],
    c: &NumberedChannel,
    out: &mut Clauses,
) -> Result<(), NoMemory>
    ensures { OnOk result (out.new ≡ out.old ++ pairs_at times pairs.now c.now) }
{
    for pair in pairs {
        add_passing_pair(times, c, *pair, out)?;
    }
    Ok(())
}

/// Adds two clauses for each channel with each pair: if both pass, their order stays, or turns where the
/// channel leaves and enters by the same end. An `Err` is out of memory; nothing is said of `out` then.
pub fn add_chains(
    times: Times,
    pairs: &[Cell],
    channels: &[NumberedChannel],
    out: &mut Clauses,
) -> Result<(), NoMemory>
    ensures { OnOk result (out.new ≡ out.old ++ pairs_at_channels times pairs.now channels.now) }
{
    for c in channels {
        add_passing_pairs(times, pairs, c, out)?;
    }
    Ok(())
}
