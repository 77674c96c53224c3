//! Whether a line follows by its hints.

ghost use Rattle.std.specs.Prelude.{◌≤◌, ◌<◌, ◌+◌, ◌↔◌, IsTrue, IfOk, All, length, map};
ghost use Rattle.sat_base.specs.Clauses.{HasDistinctVariables, clause_at};
ghost use Rattle.sat_base.specs.Resolution.{ResolveTo};
ghost use Rattle.sat_base.specs.Derivation.{IsGood, Refutes};
ghost use Rattle.certificate_lines.specs.Items.{line_of};

use qc_base::NoMemory;
use sat_base::{Formula, Lit, Resolution};

// Whether the clauses that the hints name resolve to the clause.
fn resolves(
    resolution: &mut Resolution,
    formula: &Formula,
    clause: &[Lit],
    hints: &[u64],
) -> Result<bool, NoMemory>
    requires distinct { HasDistinctVariables clause.now }
    requires named { All (λ hint. (1 ≤ hint) × (hint ≤ length formula.now)) hints.now }
    requires some { 0 < length hints.now }
    ensures { IfOk result (λ yes. IsTrue yes ↔ ResolveTo (map (clause_at formula.now) hints.now) clause.now) }
{
    resolution.start(formula.clause(hints[0]))?;
    for i in 1..hints.len() {
        if !resolution.join(formula.clause(hints[i]))? {
            return Ok(false);
        }
    }
    Ok(resolution.gives(clause))
}

/// Whether a line with these literals and hints is good.
pub fn is_good(
    resolution: &mut Resolution,
    formula: &Formula,
    vars: u32,
    clause: &[Lit],
    hints: &[u64],
) -> Result<bool, NoMemory>
    requires distinct { HasDistinctVariables clause.now }
    requires named { All (λ hint. (1 ≤ hint) × (hint ≤ length formula.now)) hints.now }
    requires some { 0 < length hints.now }
    ensures { IfOk result (λ good. IsTrue good ↔ IsGood vars formula.now (line_of clause.now hints.now)) }
{
    if hints.len() - 1 > vars as usize {
        return Ok(false);
    }
    resolves(resolution, formula, clause, hints)
}

/// Whether a clause has no literal other than the negated goal.
pub fn refutes(clause: &[Lit], goal: Lit) -> bool
    ensures { IsTrue result ↔ Refutes goal clause.now }
{
    let negated = goal.negated();
    for &lit in clause {
        if lit != negated {
            return false;
        }
    }
    true
}
