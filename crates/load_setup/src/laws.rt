//! What holds of all loads.

ghost use Rattle.std.specs.Prelude.{◌≡◌, ℕ, ◌+◌, ◌<◌, ◌≤◌, true, List, length, slice_get, Some, None, Ok};
ghost use Rattle.qc_base.specs.declared.ids.Qubit.{Qubit};
ghost use Rattle.circuit_core.specs.Circuit.{IsCircuit, qubit_count};
ghost use Rattle.trap_parts.specs.declared.parts.Need.{Need};
ghost use Rattle.trap_model.specs.Trap.{limit_of, is_able};
ghost use Rattle.trap_parts.specs.Build.{build_of, IsTrap};
ghost use Rattle.placement.specs.declared.rule.PlaceRule.TheVariants.{Declared};
ghost use Rattle.placement.specs.Placing.{place_by};
ghost use Rattle.load_setup.specs.Words.{word_after};
ghost use Rattle.load_setup.specs.Setup.{generated_trap, generated_circuit, declared_lists};

/// The first word after the seed 1.
#[tactic(auto, unfolding(crate::specs::Words::next_state))]
pub fn first_word()
    ensures { word_after 1 ≡ 908834774 }
{}

/// The parts of the trap make it, and the trap and the circuit of each seed keep what all traps and circuits keep.
pub fn loads_are_sound()
    ensures built { build_of generated_trap ≡ Ok generated_trap }
    ensures trap { IsTrap generated_trap }
    ensures circuit { (seed : ℕ) → IsCircuit (generated_circuit seed) }
    ensures qubits { (seed : ℕ) → qubit_count (generated_circuit seed) ≡ 60 }
{}

/// Each of the six zones is able to do all.
pub fn zones_are_able()
    ensures { (zone : ℕ) (need : Need) → zone < 6 → is_able generated_trap zone need ≡ true }
{}

/// The qubits of a load in declared order fill the zones, and two places of each stay free.
pub fn loads_have_room()
    ensures placed { (seed : ℕ) → place_by generated_trap (generated_circuit seed) Declared None ≡ Ok declared_lists }
    ensures free { (zone : ℕ) (list : List Qubit) → slice_get declared_lists zone ≡ Some list
        → length list + 2 ≤ limit_of generated_trap zone }
{}
