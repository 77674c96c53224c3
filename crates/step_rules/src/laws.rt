//! What the rules say of all traps, configurations and steps.

ghost use Rattle.std.specs.Prelude.{◌≡◌, ℕ, ◌<◌, List, length, All, AllPairs, Contains, IsPermutation, slice_get, Some, Ok};
ghost use Rattle.qc_base.specs.declared.ids.Ion.{Ion};
ghost use Rattle.qc_base.specs.declared.ids.Qubit.{Qubit};
ghost use Rattle.circuit_core.specs.Circuit.{CircuitValue, IsCircuit, qubit_count};
ghost use Rattle.trap_parts.specs.Parts.{TrapValue};
ghost use Rattle.trap_parts.specs.Build.{IsTrap};
ghost use Rattle.trap_model.specs.Channels.{channels_of};
ghost use Rattle.trap_model.specs.declared.channel.Channel.{Channel};
ghost use Rattle.ion_chain.specs.Transfer.{list_at};
ghost use Rattle.step_rules.specs.declared.action.Action.{Action};
ghost use Rattle.step_rules.specs.Setting.{SettingValue};
ghost use Rattle.step_rules.specs.Placement.{IsPlacement, placement_of, reading_order, ions_from, start_of};
ghost use Rattle.step_rules.specs.ActionChannel.{channel_for, action_through, IsWithin};
ghost use Rattle.step_rules.specs.Guards.{Passes, PassesTransport, guards, transport_guards};
ghost use Rattle.step_rules.specs.Steps.{place, footprint, Agree, AreApart, IsLegal, after, after_step};
ghost use Rattle.step_rules.specs.Config.{IsWithinLimits, IsKept, all_ions};
ghost use Rattle.step_rules.specs.Play.{AreLegal, after_steps};

use circuit_core::Circuit;
use trap_model::Trap;

/// A trap keeps the rules of traps, and a circuit those of circuits.
pub fn traps_and_circuits_are_sound(trap: &Trap, circuit: &Circuit)
    ensures trap { IsTrap trap.now }
    ensures circuit { IsCircuit circuit.now }
{
    trap.zones();
    circuit.ops();
}

/// The result of a legal step is the same in every order of its actions.
pub fn steps_in_any_order()
    ensures legal { (setting : SettingValue) (config : List (List Ion)) (step other : List Action)
        → IsLegal setting config step → IsPermutation step other
        → after_step setting.trap config other ≡ after_step setting.trap config step }
    ensures apart { (trap : TrapValue) (config : List (List Ion)) (step other : List Action)
        → AllPairs (AreApart trap) step → IsPermutation step other
        → after_step trap config other ≡ after_step trap config step }
{}

/// Of the configuration, the guards of an action see the places of its footprint alone.
pub fn guards_see_the_footprint()
    ensures guards { (setting : SettingValue) (config other : List (List Ion)) (action : Action)
        → Agree (footprint setting.trap action) config other
        → guards setting config action ≡ guards setting other action }
    ensures transport { (trap : TrapValue) (config other : List (List Ion)) (action : Action)
        → Agree (footprint trap action) config other
        → transport_guards trap config action ≡ transport_guards trap other action }
{}

/// An action changes the places of its footprint alone, and its channel leads between two of them.
pub fn actions_stay_in_the_footprint()
    ensures elsewhere { (trap : TrapValue) (config : List (List Ion)) (action : Action) (p : ℕ)
        → (Contains (footprint trap action) (place p) → ⊥)
        → list_at (after trap config action) p ≡ list_at config p }
    ensures from { (trap : TrapValue) (action : Action) (channel : Channel)
        → channel_for trap action ≡ Some channel → Contains (footprint trap action) (place channel.from.0) }
    ensures to { (trap : TrapValue) (action : Action) (channel : Channel)
        → channel_for trap action ≡ Some channel → Contains (footprint trap action) (place channel.to.0) }
    ensures within { (trap : TrapValue) (action : Action) (channel : Channel)
        → IsTrap trap → channel_for trap action ≡ Some channel → IsWithin trap channel }
{}

/// The action of a channel leads through it.
pub fn actions_lead_through_their_channels()
    ensures { (trap : TrapValue) (number count : ℕ) (channel : Channel) → IsTrap trap
        → slice_get (channels_of trap) number ≡ Some channel
        → channel_for trap (action_through channel count) ≡ Some channel }
{}

/// An action that passes its guards still passes them after actions that work on nothing it works on.
pub fn passing_after_others()
    ensures one { (setting : SettingValue) (config : List (List Ion)) (other action : Action)
        → AreApart setting.trap other action → Passes setting config action
        → Passes setting (after setting.trap config other) action }
    ensures several { (setting : SettingValue) (config : List (List Ion)) (others : List Action)
        (action : Action)
        → All (λ other. AreApart setting.trap other action) others → Passes setting config action
        → Passes setting (after_step setting.trap config others) action }
    ensures transport { (trap : TrapValue) (config : List (List Ion)) (others : List Action) (action : Action)
        → All (λ other. AreApart trap other action) others → PassesTransport trap config action
        → PassesTransport trap (after_step trap config others) action }
    ensures part { (setting : SettingValue) (config : List (List Ion)) (action : Action)
        → Passes setting config action → PassesTransport setting.trap config action }
{}

/// From the placement on, all that is legal keeps every ion exactly once and every place's limit.
pub fn ions_and_limits_are_kept()
    ensures by_action { (trap : TrapValue) (config : List (List Ion)) (action : Action)
        → IsTrap trap → IsWithinLimits trap config → PassesTransport trap config action
        → IsKept trap config (after trap config action) }
    ensures by_step { (setting : SettingValue) (config : List (List Ion)) (step : List Action)
        → IsTrap setting.trap → IsWithinLimits setting.trap config → IsLegal setting config step
        → IsKept setting.trap config (after_step setting.trap config step) }
    ensures by_steps { (setting : SettingValue) (config : List (List Ion)) (steps : List (List Action))
        → IsTrap setting.trap → IsWithinLimits setting.trap config → AreLegal setting config steps
        → IsKept setting.trap config (after_steps setting.trap config steps) }
    ensures start_ions { (trap : TrapValue) (placement : List (List Qubit))
        → all_ions (start_of trap placement) ≡ ions_from 0 (reading_order placement) }
    ensures start_limits { (trap : TrapValue) (circuit : CircuitValue) (placement : List (List Qubit))
        → IsPlacement trap circuit placement → IsWithinLimits trap (start_of trap placement) }
{}

/// Lists are accepted exactly where they are a placement.
pub fn placements_are_accepted()
    ensures accepted { (trap : TrapValue) (circuit : CircuitValue) (lists : List (List Qubit))
        → IsPlacement trap circuit lists → placement_of trap circuit lists ≡ Ok lists }
    ensures placed { (trap : TrapValue) (circuit : CircuitValue) (lists : List (List Qubit))
        → placement_of trap circuit lists ≡ Ok lists → length lists ≡ length trap.zones
        → All (λ qubit. qubit.0 < qubit_count circuit) (reading_order lists) → IsPlacement trap circuit lists }
{}
