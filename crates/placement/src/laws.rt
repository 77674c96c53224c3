//! What holds of the placements of all rules.

ghost use Rattle.std.specs.Prelude.{◌≡◌, ◌<◌, List, Option, Ok};
ghost use Rattle.qc_base.specs.declared.ids.Qubit.{Qubit};
ghost use Rattle.circuit_core.specs.Circuit.{CircuitValue, IsCircuit};
ghost use Rattle.trap_parts.specs.Parts.{TrapValue};
ghost use Rattle.step_rules.specs.Placement.{IsPlacement, place_of};
ghost use Rattle.placement.specs.declared.rule.PlaceRule.{PlaceRule};
ghost use Rattle.placement.specs.FirstUse.{uses_of, by_first_use};
ghost use Rattle.placement.specs.Placing.{place_by, Table, FitsZones};

/// The lists of each rule are a placement.
pub fn rules_give_placements()
    ensures { (trap : TrapValue) (circuit : CircuitValue) (rule : PlaceRule) (table : Option Table)
        (lists : List (List Qubit))
        → IsCircuit circuit → FitsZones trap table
        → place_by trap circuit rule table ≡ Ok lists → IsPlacement trap circuit lists }
{}

/// Of two qubits, the one that is used first comes first.
pub fn earlier_uses_come_first()
    ensures { (circuit : CircuitValue) (first second : Qubit)
        → place_of first (uses_of circuit) < place_of second (uses_of circuit)
        → place_of first (by_first_use circuit) < place_of second (by_first_use circuit) }
{}
