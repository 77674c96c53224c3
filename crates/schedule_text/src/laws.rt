//! Laws of the text.

ghost use Rattle.std.specs.Prelude.{◌≡◌, ℕ, ◌≤◌, ◌^◌, List, length};
ghost use Rattle.qc_base.specs.declared.ids.Qubit.{Qubit};
ghost use Rattle.circuit_core.specs.Circuit.{CircuitValue, IsCircuit};
ghost use Rattle.trap_parts.specs.Parts.{TrapValue};
ghost use Rattle.trap_model.specs.Trap.{place_count};
ghost use Rattle.trap_parts.specs.Build.{IsTrap};
ghost use Rattle.step_rules.specs.declared.action.Action.{Action};
ghost use Rattle.step_rules.specs.Placement.{IsPlacement};
ghost use Rattle.step_rules.specs.Play.{Plays};
ghost use Rattle.step_rules.specs.Setting.{setting_of};
ghost use Rattle.schedule_text.specs.Text.{schedule_text};
ghost use Rattle.schedule_text.specs.Reading.{Spells};

/// Two different pairs of placement and schedule have different texts.
pub fn one_text()
    ensures { (trap : TrapValue) (circuit : CircuitValue)
        (placement other : List (List Qubit)) (steps more : List (List Action)) (bytes : List ℕ)
        → IsTrap trap → IsCircuit circuit → Spells trap circuit placement steps bytes
        → Spells trap circuit other more bytes → (placement ≡ other) × (steps ≡ more) }
{}

/// The text of a schedule that plays, of at most 48 steps and 200 operations on a trap of at most 48 places, has
/// at most 2^30 bytes.
pub fn small_schedules_have_short_texts()
    ensures { (trap : TrapValue) (circuit : CircuitValue)
        (placement : List (List Qubit)) (steps : List (List Action))
        → IsTrap trap → IsCircuit circuit → IsPlacement trap circuit placement
        → Plays (setting_of trap circuit placement) steps
        → place_count trap ≤ 48 → length circuit.ops ≤ 200 → length steps ≤ 48
        → length (schedule_text (setting_of trap circuit placement) steps) ≤ 2 ^ 30 }
{}
