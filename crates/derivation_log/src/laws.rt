//! What the first lines of a log are as the lines of a certificate.

ghost use Rattle.std.specs.Prelude.{◌≡◌, ℕ, ◌+◌, ◌<◌, ◌≤◌, ◌^◌, ◌⊎◌, List, [], length, take, Result, Ok, Err};
ghost use Rattle.sat_base.specs.Clauses.{NameOnly};
ghost use Rattle.sat_base.specs.Derivation.{Line, AreDerived, AreGood};
ghost use Rattle.sat_base.specs.Certificate.{HaveForm};
ghost use Rattle.derivation_log.specs.Log.{Lines, IsSound};
ghost use Rattle.derivation_log.specs.Printing.{Covers, first_lines};
ghost use Rattle.derivation_log.specs.declared.lines_fault.LinesFault.{LinesFault as ALinesFault};
ghost use Rattle.derivation_log.specs.declared.lines_fault.LinesFault.TheVariants.{NoMemory};
ghost use Rattle.derivation_log.specs.Reading.{Task, log_with, ReadsLines, Answers};

/// The first lines of a log, none of whose hints is a later axiom, are derived from its first axioms.
pub fn first_lines_are_derived()
    ensures { (log : Lines) (axioms lines : ℕ) → IsSound log → Covers log axioms lines
        → AreDerived (take axioms log.axioms) (first_lines log axioms lines) }
{}

/// Where these axioms name only the variables from 1 to vars, the lines are good and have the form of lines of a
/// certificate.
pub fn first_lines_are_good()
    ensures { (log : Lines) (axioms lines vars : ℕ) → IsSound log → Covers log axioms lines
        → NameOnly (λ var. (1 ≤ var) × (var ≤ vars)) (take axioms log.axioms)
        → AreGood vars (take axioms log.axioms) (first_lines log axioms lines)
        × HaveForm vars (axioms + 1) (first_lines log axioms lines) }
{}

/// The text of lines that have the form and are good has one answer, out of memory aside: the log of these lines.
pub fn good_lines_are_read_back()
    ensures { (task : Task) (bytes : List ℕ) (lines : List Line) (answer : Result Lines ALinesFault)
        → task.vars < 2 ^ 31 → length task.formula + length bytes < 2 ^ 64
        → ReadsLines task bytes lines [] → Answers task bytes answer
        → (answer ≡ Ok (log_with task.formula lines)) ⊎ (answer ≡ Err NoMemory) }
{}
