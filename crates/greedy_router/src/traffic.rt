//! Ions that travel between zones, one after another.

ghost use Rattle.std.specs.Prelude.{◌≡◌, ◌≢◌, ℕ, ◌+◌, ◌<◌, ◌≤◌, true, [], Some, None, length, slice_get, IfOk, OnOk, MatchOption};
ghost use Rattle.ion_chain.specs.Transfer.{list_at};
ghost use Rattle.trap_model.specs.Trap.{limit_of, is_able};
ghost use Rattle.step_rules.specs.Placement.{IsPlacement};
ghost use Rattle.circuit_core.specs.Order.{is_performed};
ghost use Rattle.greedy_router.specs.Room.{HasRoom};
ghost use Rattle.greedy_router.specs.Routing.{IsMap, IsWithin};
ghost use Rattle.greedy_router.specs.Places.{count_of, home_of, HasFree, OthersHaveFree, AllHaveFree, IsUncrowded};

use crate::choice::{Choice, nearer};
use crate::homes::homes;
use crate::job::Job;
use crate::map::Map;
use crate::played::Played;
use crate::travel::carry;
use qc_base::{End, Ion, NoMemory, OpId, PlaceId};
use std::alloc::Global;
use step_rules::Setting;

/// The actions so far, and the zone of each ion.
#[derive(Debug, Drop)]
pub(crate) struct Traffic {
    pub(crate) played: Played,
    pub(crate) homes: Vec<PlaceId>,
}

// The ion at an end of a zone.
fn outermost(ions: &[Ion], end: End) -> Ion
    requires { 0 < length ions.now }
    ensures { 1 ≤ count_of result.0 ions.now }
{
    match end {
        End::A => ions[0],
        End::B => ions[ions.len() - 1],
    }
}

impl Traffic {
    ghost use Rattle.greedy_router.specs.Traffic.{IsTraffic, MayTravel, Flows, Travels, Sends, Frees, Gathers};

    /// Before the first action.
    pub(crate) fn start(alloc: Global, setting: &Setting) -> Result<Traffic, NoMemory>
        requires placed { IsPlacement setting.now.trap setting.now.circuit setting.now.placement }
        requires room { HasRoom setting.now }
        ensures traffic { IfOk result (IsTraffic setting.now) }
        ensures none { IfOk result (λ traffic. traffic.played.actions.items ≡ []) }
        ensures free { IfOk result (λ traffic. AllHaveFree setting.now.trap traffic.played.config.lists 2) }
    {
        Ok(Traffic {
            played: Played::start(alloc, setting)?,
            homes: homes(alloc, setting)?,
        })
    }

    /// The zone of an ion.
    pub(crate) fn home(&self, ion: Ion) -> PlaceId
        requires { ion.0 < length self.now.homes.items }
        ensures { result.0 ≡ home_of self.now.homes.items ion.0 }
    {
        self.homes[ion.0 as usize]
    }

    // An ion travels from its zone to another. Every zone but its own has a free place.
    fn travel(&mut self, map: &Map, ion: Ion, to: PlaceId) -> Result<(), NoMemory>
        requires map { IsMap map.now }
        requires traffic { IsTraffic map.now.setting self.old }
        requires travels { MayTravel map.now.setting self.old.played.actions.items }
        requires ion { ion.0 < length self.old.homes.items }
        requires to { to.0 < length map.now.setting.trap.zones }
        requires free { OthersHaveFree map.now.setting.trap self.old.played.config.lists 1
            (home_of self.old.homes.items ion.0) }
        ensures { OnOk result (Travels map.now.setting self.old self.new ion.0
            (home_of self.old.homes.items ion.0) to.0) }
    {
        let from = self.home(ion);
        let distances = &map.zone_distances[to.0 as usize];
        carry(&mut self.played, map.setting, distances, ion, from)?;
        self.homes[ion.0 as usize] = to;
        Ok(())
    }

    // The nearest zone that has three free places.
    fn nearest_roomy(&self, map: &Map, from: PlaceId) -> Option<PlaceId>
        requires map { IsMap map.now }
        requires traffic { IsTraffic map.now.setting self.now }
        requires from { from.0 < length map.now.setting.trap.zones }
        ensures { MatchOption result
            ((zone : ℕ) → zone < length map.now.setting.trap.zones
            → ¬ HasFree map.now.setting.trap self.now.played.config.lists 3 zone)
            (λ zone. (zone.0 < length map.now.setting.trap.zones)
            × HasFree map.now.setting.trap self.now.played.config.lists 3 zone.0) }
    {
        let mut best = None;
        for zone in 0..map.zones() {
            let zone = PlaceId(zone);
            if self.played.free(map.trap(), zone) >= 3 {
                let length = map.length(from, zone) as u64;
                best = Some(nearer(best, Choice { zone, length }));
            }
        }
        match best {
            Some(choice) => Some(choice.zone),
            None => None,
        }
    }

    // The zone sends an ion to the nearest zone that has three free places: the one at the end where it leaves.
    fn send(&mut self, map: &Map, zone: PlaceId) -> Result<(), NoMemory>
        requires map { IsMap map.now }
        requires traffic { IsTraffic map.now.setting self.old }
        requires travels { MayTravel map.now.setting self.old.played.actions.items }
        requires zone { zone.0 < length map.now.setting.trap.zones }
        requires tight { limit_of map.now.setting.trap zone.0
            < length (list_at self.old.played.config.lists zone.0) + 2 }
        requires others { OthersHaveFree map.now.setting.trap self.old.played.config.lists 2 zone.0 }
        ensures { OnOk result (Sends map.now.setting self.old self.new zone.0) }
    {
        let to = self.nearest_roomy(map, zone).unwrap();
        let end = map.exit(zone, to);
        let ion = outermost(self.played.list(zone), end);
        self.travel(map, ion, to)
    }

    // The zone sends ions to others until it has two free places.
    fn free_zone(&mut self, map: &Map, zone: PlaceId) -> Result<(), NoMemory>
        requires map { IsMap map.now }
        requires traffic { IsTraffic map.now.setting self.old }
        requires travels { MayTravel map.now.setting self.old.played.actions.items }
        requires zone { zone.0 < length map.now.setting.trap.zones }
        requires uncrowded { IsUncrowded map.now.setting.trap self.old.played.config.lists }
        ensures frees { OnOk result (Frees map.now.setting self.old self.new) }
        ensures free { OnOk result (HasFree map.now.setting.trap self.new.played.config.lists 2 zone.0) }
    {
        while self.played.free(map.trap(), zone) < 2 {
            self.send(map, zone)?;
        }
        Ok(())
    }

    /// Each zone with fewer than two free places sends ions to others until it has two.
    pub(crate) fn free_zones(&mut self, map: &Map) -> Result<(), NoMemory>
        requires map { IsMap map.now }
        requires traffic { IsTraffic map.now.setting self.old }
        requires travels { MayTravel map.now.setting self.old.played.actions.items }
        requires uncrowded { IsUncrowded map.now.setting.trap self.old.played.config.lists }
        ensures flows { OnOk result (Flows map.now.setting self.old self.new) }
        ensures free { OnOk result (AllHaveFree map.now.setting.trap self.new.played.config.lists 2) }
    {
        for zone in 0..map.zones() {
            self.free_zone(map, PlaceId(zone))?;
        }
        Ok(())
    }

    // How many channels the ions of a job have to go through to a zone.
    fn cost(&self, map: &Map, job: &Job, zone: PlaceId) -> u64
        requires map { IsMap map.now }
        requires traffic { IsTraffic map.now.setting self.now }
        requires job { IsWithin (length self.now.homes.items) job.now }
        requires zone { zone.0 < length map.now.setting.trap.zones }
    {
        let first = map.length(self.home(job.first), zone) as u64;
        match job.second {
            Some(second) => first + map.length(self.home(second), zone) as u64,
            None => first,
        }
    }

    // The nearest zone that is able to perform a job.
    fn nearest_able(&self, map: &Map, job: &Job) -> Option<PlaceId>
        requires map { IsMap map.now }
        requires traffic { IsTraffic map.now.setting self.now }
        requires job { IsWithin (length self.now.homes.items) job.now }
        ensures { MatchOption result
            ((zone : ℕ) → zone < length map.now.setting.trap.zones
            → ¬ is_able map.now.setting.trap zone job.now.need ≡ true)
            (λ zone. (zone.0 < length map.now.setting.trap.zones)
            × (is_able map.now.setting.trap zone.0 job.now.need ≡ true)) }
    {
        let mut best = None;
        for zone in 0..map.zones() {
            let zone = PlaceId(zone);
            if map.trap().able(zone, job.need) {
                let length = self.cost(map, job, zone);
                best = Some(nearer(best, Choice { zone, length }));
            }
        }
        match best {
            Some(choice) => Some(choice.zone),
            None => None,
        }
    }

    /// Brings the ions of an operation together, in the nearest zone that is able to perform it.
    pub(crate) fn gather(&mut self, map: &Map, op: OpId) -> Result<PlaceId, NoMemory>
        requires map { IsMap map.now }
        requires traffic { IsTraffic map.now.setting self.old }
        requires travels { MayTravel map.now.setting self.old.played.actions.items }
        requires free { AllHaveFree map.now.setting.trap self.old.played.config.lists 2 }
        requires performed { is_performed map.now.setting.circuit op.0 ≡ true }
        ensures { IfOk result (λ zone. Gathers map.now.setting self.old self.new zone.0 op.0) }
    {
        let job = map.job(op);
        let zone = self.nearest_able(map, &job).unwrap();
        self.travel(map, job.first, zone)?;
        if let Some(second) = job.second {
            self.travel(map, second, zone)?;
        }
        Ok(zone)
    }
}
