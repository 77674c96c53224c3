//! What never changes while a circuit is routed.

ghost use Rattle.std.specs.Prelude.{◌≡◌, ◌≢◌, ◌<◌, length, true, IfOk, Some, slice_get};
ghost use Rattle.trap_parts.specs.Build.{IsTrap};
ghost use Rattle.step_rules.specs.Placement.{IsPlacement};
ghost use Rattle.circuit_core.specs.Order.{is_performed};
ghost use Rattle.greedy_router.specs.Room.{HasRoom};
ghost use Rattle.greedy_router.specs.Routing.{IsMap, AreZoneDistances};

use crate::job::{Job, jobs};
use qc_base::{End, NoMemory, OpId, PlaceId};
use route_find::Distances;
use std::alloc::Global;
use std::marker::Model;
use step_rules::Setting;
use trap_model::Trap;

/// A setting, the distances to each of its zones, and the job of each operation.
#[derive(Drop)]
pub(crate) struct Map<'a> {
    pub(crate) setting: &'a Setting<'a>,
    pub(crate) zone_distances: Vec<Distances>,
    pub(crate) jobs: Vec<Option<Job>>,
}

impl<'a> Model for Map<'a> {
    ghost use Rattle.greedy_router.specs.Routing.{MapValue};
    ghost use Rattle.circuit_core.specs.contracts.angle.Angle as angle;
    ghost use Rattle.std.specs.Coded.{codes};

    ghost Value = { MapValue };

    ghost coded = { Prim.hlevel (codes, angle.the_row.coded) };

    ghost view = { λ m. record {
      setting = m.setting.now;
      zone_distances = m.zone_distances.items;
      jobs = m.jobs.items;
    } };
}

// The distances to each zone, by one search for each.
fn zone_distances(alloc: Global, trap: &Trap) -> Result<Vec<Distances>, NoMemory>
    ensures zone_distances { IfOk result
        (λ list. AreZoneDistances trap.now (length trap.now.zones) list.items) }
    ensures trap { IsTrap trap.now }
{
    let mut zone_distances = Vec::new(alloc);
    for zone in 0..trap.zones().len() as u32 {
        zone_distances.push(Distances::to(alloc, trap, PlaceId(zone))?)?;
    }
    Ok(zone_distances)
}

impl<'a> Map<'a> {
    pub(crate) fn new(alloc: Global, setting: &'a Setting<'a>) -> Result<Map<'a>, NoMemory>
        requires placed { IsPlacement setting.now.trap setting.now.circuit setting.now.placement }
        requires room { HasRoom setting.now }
        ensures map { IfOk result (λ map. IsMap map) }
        ensures setting { IfOk result (λ map. map.setting ≡ setting.now) }
    {
        let zone_distances = zone_distances(alloc, setting.trap)?;
        let jobs = jobs(alloc, setting.circuit, setting.placement)?;
        Ok(Map {
            setting,
            zone_distances,
            jobs,
        })
    }

    /// The trap.
    pub(crate) fn trap(&self) -> &Trap
        ensures { result.now ≡ self.now.setting.trap }
    {
        let setting = self.setting;
        setting.trap
    }

    /// How many zones there are.
    pub(crate) fn zones(&self) -> u32
        ensures { result ≡ length self.now.setting.trap.zones }
    {
        self.trap().zones().len() as u32
    }

    /// How many channels a shortest walk from zone to zone has.
    pub(crate) fn length(&self, from: PlaceId, to: PlaceId) -> u32
        requires map { IsMap self.now }
        requires from { from.0 < length self.now.setting.trap.zones }
        requires to { to.0 < length self.now.setting.trap.zones }
    {
        self.zone_distances[to.0 as usize].distance(from).unwrap()
    }

    /// The end by which a shortest walk leaves a zone for another.
    pub(crate) fn exit(&self, from: PlaceId, to: PlaceId) -> End
        requires map { IsMap self.now }
        requires from { from.0 < length self.now.setting.trap.zones }
        requires to { to.0 < length self.now.setting.trap.zones }
        requires apart { from ≢ to }
    {
        let number = self.zone_distances[to.0 as usize].next(from).unwrap();
        self.trap().channels()[number as usize].from_end
    }

    /// The job of an operation.
    pub(crate) fn job(&self, op: OpId) -> Job
        requires map { IsMap self.now }
        requires performed { is_performed self.now.setting.circuit op.0 ≡ true }
        ensures { slice_get self.now.jobs op.0 ≡ Some (Some result) }
    {
        self.jobs[op.0 as usize].unwrap()
    }
}
