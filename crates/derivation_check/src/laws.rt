//! What an accepted certificate says, and that bytes have one answer.

ghost use Rattle.std.specs.Prelude.{◌≡◌, ◌≢◌, ℕ, ◌+◌, ◌++◌, ◌↔◌, List, length, Result, Err};
ghost use Rattle.sat_base.specs.Literal.{Literal};
ghost use Rattle.sat_base.specs.Truth.{HasNoModel};
ghost use Rattle.sat_base.specs.Derivation.{Line, AreGood};
ghost use Rattle.sat_base.specs.Certificate.{HaveForm};
ghost use Rattle.sat_base.specs.declared.certificate.Head.{Head as AHead};
ghost use Rattle.derivation_check.specs.declared.cert_fault.CertFault.{CertFault as ACertFault};
ghost use Rattle.derivation_check.specs.declared.cert_fault.CertFault.TheVariants.{NoMemory};
ghost use Rattle.derivation_check.specs.HeadFaults.{ReadsHead};
ghost use Rattle.derivation_check.specs.Faults.{Task, AreAccepted, HasFault, IsRefutation, IsSmall, Answers};

/// Accepted lines are those that have the form and are good.
pub fn accepted_lines_are_good()
    ensures { (vars : ℕ) (clauses : List (List Literal)) (lines : List Line) → AreAccepted vars clauses lines
        ↔ (HaveForm vars (length clauses + 1) lines × AreGood vars clauses lines) }
{}

/// Where the bytes are a refutation, no assignment satisfies the formula and makes the goal true, whoever
/// wrote the bytes.
pub fn refutations_refute()
    ensures { (task : Task) (bytes : List ℕ) (goal : Literal) (count : ℕ) → IsRefutation task bytes goal count
        → HasNoModel task.formula goal }
{}

/// A fault of bytes is the answer, whatever bytes come after them and whatever the goal is.
pub fn faults_stay()
    ensures { (task : Task) (bytes more : List ℕ) (goal : Literal) (fault : ACertFault)
        → HasFault task bytes fault → Answers task (bytes ++ more) goal (Err fault) }
{}

/// Two answers for the same bytes are equal, out of memory aside.
pub fn one_answer()
    ensures { (task : Task) (bytes : List ℕ) (goal : Literal) (answer other : Result ℕ ACertFault)
        → IsSmall task → Answers task bytes goal answer → answer ≢ Err NoMemory
        → Answers task bytes goal other → other ≢ Err NoMemory → answer ≡ other }
{}

/// Bytes begin with one head, or have one first line that doesn't have the form.
pub fn one_head()
    ensures { (bytes : List ℕ) (answer other : Result (AHead × ℕ) ACertFault) → ReadsHead bytes answer
        → ReadsHead bytes other → answer ≡ other }
{}
