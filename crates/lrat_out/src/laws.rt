//! What an accepted proof says, and that the exported text is accepted.

ghost use Rattle.std.specs.Prelude.{◌≡◌, ℕ, ◌<◌, ◌≤◌, ◌+◌, ◌^◌, ◌⊎◌, List, length, Result, Ok, Err};
ghost use Rattle.sat_base.specs.Clauses.{NameOnly};
ghost use Rattle.sat_base.specs.Literal.{positive_of};
ghost use Rattle.sat_base.specs.Truth.{Valuation, Satisfies};
ghost use Rattle.sat_base.specs.Derivation.{Refutes};
ghost use Rattle.derivation_log.specs.Log.{Lines, IsSound, IsLine, derived_id, clause_of};
ghost use Rattle.lrat_out.specs.declared.lrat_fault.LratFault.{LratFault as ALratFault};
ghost use Rattle.lrat_out.specs.declared.lrat_fault.LratFault.TheVariants.{NoMemory};
ghost use Rattle.lrat_out.specs.Lines.{lrat_text, hand_of};
ghost use Rattle.lrat_out.specs.Right.{AreAccepted};
ghost use Rattle.lrat_out.specs.Faults.{Task, task_of, IsProof, HaveEmpty, Answers};
ghost use Rattle.lrat_out.specs.Export.{with_goal, proof_lines};

/// No assignment satisfies a formula that has a proof, whoever wrote it.
pub fn a_proof_leaves_no_model()
    ensures { (task : Task) (text : List ℕ) (count : ℕ) → IsProof task text count
        → (values : Valuation) → Satisfies values task.formula → ⊥ }
{}

/// A proof has one answer, out of memory aside: the number of its lines.
pub fn a_proof_is_accepted()
    ensures { (task : Task) (text : List ℕ) (count : ℕ) (answer : Result ℕ ALratFault) → task.vars < 2 ^ 31
        → IsProof task text count → Answers task text answer
        → (answer ≡ Ok count) ⊎ (answer ≡ Err NoMemory) }
{}

/// The lines that are exported for a line that refutes the goal have the form and are right, over the axioms and the
/// goal's unit clause, and one of them is empty.
pub fn exported_lines_are_accepted()
    ensures { (log : Lines) (goal last vars : ℕ) → IsSound log → IsLine log (derived_id last)
        → Refutes (positive_of goal) (clause_of log (derived_id last)) → length log.axioms + last + 2 < 2 ^ 64
        → NameOnly (λ var. (1 ≤ var) × (var ≤ vars)) (with_goal log goal)
        → AreAccepted vars (hand_of (with_goal log goal)) (proof_lines log last)
        × HaveEmpty (proof_lines log last) }
{}

/// So their text has no fault: over that formula its one answer is the number of the lines, out of memory aside.
pub fn exported_text_is_a_proof()
    ensures { (log : Lines) (goal last vars : ℕ) (answer : Result ℕ ALratFault) → IsSound log
        → IsLine log (derived_id last) → Refutes (positive_of goal) (clause_of log (derived_id last))
        → length log.axioms + last + 2 < 2 ^ 64 → vars < 2 ^ 31
        → NameOnly (λ var. (1 ≤ var) × (var ≤ vars)) (with_goal log goal)
        → Answers (task_of (with_goal log goal) vars) (lrat_text (proof_lines log last)) answer
        → (answer ≡ Ok (length (proof_lines log last))) ⊎ (answer ≡ Err NoMemory) }
{}
