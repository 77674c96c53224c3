//! The travel of one ion from zone to zone.

ghost use Rattle.std.specs.Prelude.{◌≡◌, ◌<◌, ◌≤◌, true, IsSome, Some, length, slice_get, OnOk};
ghost use Rattle.trap_parts.specs.Build.{IsTrap};
ghost use Rattle.trap_model.specs.Channels.{channels_of};
ghost use Rattle.trap_model.specs.declared.channel.Channel.{Channel as AChannel};
ghost use Rattle.ion_chain.specs.Transfer.{list_at};
ghost use Rattle.route_find.specs.Distances.{AreDistances, distance_at};
ghost use Rattle.step_rules.specs.ActionChannel.{channel_for};
ghost use Rattle.greedy_router.specs.Serial.{IsSingle};
ghost use Rattle.greedy_router.specs.Places.{count_of, IsInZone, IsCalm, OthersHaveFree};
ghost use Rattle.greedy_router.specs.Traffic.{IsPlayed, MayTravel, Brings, Carries, CanPass, carries};

use crate::played::Played;
use qc_base::{End, Ion, NoMemory, PlaceId};
use route_find::Distances;
use step_rules::{Action, Setting};
use trap_model::Trap;

// The index of an ion that is among these.
fn index_of(ions: &[Ion], ion: Ion) -> u32
    requires there { 1 ≤ count_of ion.0 ions.now }
    requires few { length ions.now ≤ 32 }
    ensures { slice_get ions.now result ≡ Some ion }
{
    for (index, other) in ions.iter().enumerate() {
        if *other == ion {
            return index as u32;
        }
    }
    unreachable!()
}

// Brings an ion to end a of its zone, by one swap after another.
fn bring_to_a(
    played: &mut Played,
    setting: &Setting,
    zone: PlaceId,
    ion: Ion,
) -> Result<(), NoMemory>
    requires trap { IsTrap setting.now.trap }
    requires played { IsPlayed setting.now played.old }
    requires travels { MayTravel setting.now played.old.actions.items }
    requires zone { zone.0 < length setting.now.trap.zones }
    requires present { 1 ≤ count_of ion.0 (list_at played.old.config.lists zone.0) }
    ensures { OnOk result (Brings setting.now played.old played.new zone.0 ion End.A) }
{
    let mut index = index_of(played.list(zone), ion);
    while index > 0 {
        index -= 1;
        played.act(setting, Action::Swap { zone, index })?;
    }
    Ok(())
}

// Brings an ion to end b of its zone, by one swap after another.
fn bring_to_b(
    played: &mut Played,
    setting: &Setting,
    zone: PlaceId,
    ion: Ion,
) -> Result<(), NoMemory>
    requires trap { IsTrap setting.now.trap }
    requires played { IsPlayed setting.now played.old }
    requires travels { MayTravel setting.now played.old.actions.items }
    requires zone { zone.0 < length setting.now.trap.zones }
    requires present { 1 ≤ count_of ion.0 (list_at played.old.config.lists zone.0) }
    ensures { OnOk result (Brings setting.now played.old played.new zone.0 ion End.B) }
{
    let last = played.list(zone).len() as u32 - 1;
    let mut index = index_of(played.list(zone), ion);
    while index < last {
        played.act(setting, Action::Swap { zone, index })?;
        index += 1;
    }
    Ok(())
}

// Brings an ion to an end of its zone.
fn bring(
    played: &mut Played,
    setting: &Setting,
    zone: PlaceId,
    ion: Ion,
    end: End,
) -> Result<(), NoMemory>
    requires trap { IsTrap setting.now.trap }
    requires played { IsPlayed setting.now played.old }
    requires travels { MayTravel setting.now played.old.actions.items }
    requires zone { zone.0 < length setting.now.trap.zones }
    requires present { 1 ≤ count_of ion.0 (list_at played.old.config.lists zone.0) }
    ensures { OnOk result (Brings setting.now played.old played.new zone.0 ion end) }
{
    match end {
        End::A => bring_to_a(played, setting, zone, ion),
        End::B => bring_to_b(played, setting, zone, ion),
    }
}

// The action by which one ion goes through the channel of that number.
fn action_through(trap: &Trap, number: u32) -> Action
    requires { number < length (channels_of trap.now) }
    ensures channel { channel_for trap.now result ≡ slice_get (channels_of trap.now) number }
    ensures carries { carries result ≡ true }
    ensures single { IsSingle result }
{
    Action::through(&trap.channels()[number as usize], 1)
}

// One ion goes through the channel of that number.
fn pass(played: &mut Played, setting: &Setting, ion: Ion, number: u32) -> Result<(), NoMemory>
    requires trap { IsTrap setting.now.trap }
    requires played { IsPlayed setting.now played.old }
    requires travels { MayTravel setting.now played.old.actions.items }
    requires there { number < length (channels_of setting.now.trap) }
    requires free { (channel : AChannel) → slice_get (channels_of setting.now.trap) number ≡ Some channel
        → CanPass setting.now.trap played.old.config.lists ion.0 channel.from.0 channel.to.0 }
    ensures { OnOk result ((channel : AChannel) → slice_get (channels_of setting.now.trap) number ≡ Some channel
        → Carries setting.now played.old played.new ion.0 channel.from.0 channel.to.0) }
{
    let action = action_through(setting.trap, number);
    if let Action::Split { zone, end, .. } = action {
        bring(played, setting, zone, ion, end)?;
    }
    played.act(setting, action)
}

/// An ion travels from its zone to the one of the distances, where every other zone has a free place.
pub(crate) fn carry(
    played: &mut Played,
    setting: &Setting,
    distances: &Distances,
    ion: Ion,
    from: PlaceId,
) -> Result<(), NoMemory>
    requires trap { IsTrap setting.now.trap }
    requires played { IsPlayed setting.now played.old }
    requires travels { MayTravel setting.now played.old.actions.items }
    requires calm { IsCalm setting.now.trap played.old.config.lists }
    requires present { IsInZone setting.now.trap played.old.config.lists ion.0 from.0 }
    requires distances { AreDistances setting.now.trap distances.now }
    requires reached { IsSome (distance_at distances.now from.0) }
    requires free { OthersHaveFree setting.now.trap played.old.config.lists 1 from.0 }
    ensures { OnOk result (Carries setting.now played.old played.new ion.0 from.0 distances.now.target) }
{
    let mut place = from;
    while let Some(number) = distances.next(place) {
        pass(played, setting, ion, number)?;
        place = setting.trap.channels()[number as usize].to;
    }
    Ok(())
}
