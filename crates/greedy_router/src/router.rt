//! The router.

ghost use Rattle.std.specs.Prelude.{◌≡◌, ◌<◌, ℕ, true, length, All, IfOk, OnOk, MatchOption};
ghost use Rattle.gate_order.specs.Ready.{AreReady};
ghost use Rattle.step_rules.specs.Placement.{IsPlacement};
ghost use Rattle.step_rules.specs.Setting.{setting_of};
ghost use Rattle.circuit_core.specs.Order.{is_performed};
ghost use Rattle.step_rules.specs.Play.{Plays, one_at_a_time};
ghost use Rattle.greedy_router.specs.Room.{HasRoom};
ghost use Rattle.greedy_router.specs.Routing.{IsMap};
ghost use Rattle.greedy_router.specs.Places.{IsUncrowded};
ghost use Rattle.greedy_router.specs.Serial.{IsTogether, IsPossible, IsNext, IsGreedy, IsSingle};
ghost use Rattle.greedy_router.specs.Traffic.{IsTraffic, IsPlayed, Comes, Ends, ready_after};

use crate::map::Map;
use crate::traffic::Traffic;
use circuit_core::Circuit;
use gate_order::Ready;
use qc_base::{NoMemory, OpId, PlaceId};
use std::alloc::Global;
use step_rules::{Action, Placement, Setting};
use trap_model::Trap;

/// An operation, and the zone where it is performed.
#[derive(Clone, Copy, Debug, PartialEq, Eq)]
struct Turn {
    zone: PlaceId,
    op: OpId,
}

// The zone where the ions of an operation are together, where it is able to perform it.
fn meeting(traffic: &Traffic, map: &Map, op: OpId) -> Option<PlaceId>
    requires map { IsMap map.now }
    requires traffic { IsTraffic map.now.setting traffic.now }
    requires performed { is_performed map.now.setting.circuit op.0 ≡ true }
    ensures { MatchOption result
        ((zone : ℕ) → ¬ IsTogether map.now.setting traffic.now.played.config.lists zone op.0)
        (λ zone. IsTogether map.now.setting traffic.now.played.config.lists zone.0 op.0) }
{
    let job = map.job(op);
    let zone = traffic.home(job.first);
    if let Some(second) = job.second {
        if traffic.home(second) != zone {
            return None;
        }
    }
    if !map.trap().able(zone, job.need) {
        return None;
    }
    Some(zone)
}

// The least ready operation whose ions are together in an able zone.
fn together(traffic: &Traffic, map: &Map, ready: &[OpId]) -> Option<Turn>
    requires map { IsMap map.now }
    requires traffic { IsTraffic map.now.setting traffic.now }
    requires ready { AreReady (ready_after map.now.setting traffic.now.played.actions.items) ready.now }
    ensures { MatchOption result
        ((zone op : ℕ) → ¬ IsPossible map.now.setting traffic.now.played.actions.items zone op)
        (λ turn. IsNext map.now.setting traffic.now.played.actions.items turn.zone.0 turn.op.0) }
{
    for op in ready {
        if let Some(zone) = meeting(traffic, map, *op) {
            return Some(Turn { zone, op: *op });
        }
    }
    None
}

// The next operation. Where the ions of none are together, crowded zones send ions away first, and then the ions of
// the least ready operation are brought together.
fn next(traffic: &mut Traffic, map: &Map, ready: &[OpId]) -> Result<Turn, NoMemory>
    requires map { IsMap map.now }
    requires traffic { IsTraffic map.now.setting traffic.old }
    requires uncrowded { IsUncrowded map.now.setting.trap traffic.old.played.config.lists }
    requires ready { AreReady (ready_after map.now.setting traffic.old.played.actions.items) ready.now }
    requires some { 0 < length ready.now }
    ensures { IfOk result (λ turn. Comes map.now.setting traffic.old traffic.new turn.zone.0 turn.op.0) }
{
    if let Some(turn) = together(traffic, map, ready) {
        return Ok(turn);
    }
    let before = traffic.played.actions.len();
    traffic.free_zones(map)?;
    if traffic.played.actions.len() > before {
        if let Some(turn) = together(traffic, map, ready) {
            return Ok(turn);
        }
    }
    let op = ready[0];
    let zone = traffic.gather(map, op)?;
    Ok(Turn { zone, op })
}

// Performs all operations.
fn perform_all(traffic: &mut Traffic, map: &Map, ready: &mut Ready) -> Result<(), NoMemory>
    requires map { IsMap map.now }
    requires traffic { IsTraffic map.now.setting traffic.old }
    requires uncrowded { IsUncrowded map.now.setting.trap traffic.old.played.config.lists }
    requires ready { ready.old ≡ ready_after map.now.setting traffic.old.played.actions.items }
    ensures { OnOk result (Ends map.now.setting traffic.new) }
{
    while !ready.ready().is_empty() {
        let turn = next(traffic, map, ready.ready())?;
        traffic.played.perform(map.setting, turn.zone, turn.op)?;
        ready.done(turn.op);
    }
    Ok(())
}

/// A serial list of actions that performs the circuit, in which only single ions travel.
pub fn serial(
    alloc: Global,
    trap: &Trap,
    circuit: &Circuit,
    placement: &Placement,
) -> Result<Vec<Action>, NoMemory>
    requires placed { IsPlacement trap.now circuit.now placement.now }
    requires room { HasRoom (setting_of trap.now circuit.now placement.now) }
    ensures plays { IfOk result
        (λ actions. Plays (setting_of trap.now circuit.now placement.now) (one_at_a_time actions.items)) }
    ensures greedy { IfOk result
        (λ actions. IsGreedy (setting_of trap.now circuit.now placement.now) actions.items) }
    ensures single { IfOk result (λ actions. All IsSingle actions.items) }
{
    let setting = Setting {
        trap,
        circuit,
        placement,
    };
    let map = Map::new(alloc, &setting)?;
    let mut traffic = Traffic::start(alloc, &setting)?;
    let mut ready = Ready::new(alloc, circuit)?;
    perform_all(&mut traffic, &map, &mut ready)?;
    Ok(traffic.played.actions)
}
