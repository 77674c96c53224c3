//! A formula of six clauses and its proof: exported, accepted, and edited.

use super::certificates::small_formula;
use derivation_log::Log;
use lrat_out::{LratFault, accept, dimacs, lrat};
use sat_base::{Formula, Lit};
use std::alloc::Global;
use std::test::Fail;

// The small formula, and the clause 5.
fn with_goal(alloc: Global) -> Result<Formula, Fail> {
    let mut formula = small_formula(alloc)?;
    formula.push(&[Lit::new(5, true)])?;
    Ok(formula)
}

#[test]
fn formula_in_dimacs(rt: HostRuntime) -> Result<(), Fail> {
    let formula = with_goal(rt.alloc())?;
    assert_eq!(rt;
        dimacs(rt.alloc(), &formula, 5)?.as_slice(),
        b"p cnf 5 6\n1 0\n2 0\n3 0\n-4 0\n-5 4 0\n5 0\n".as_slice()
    );
    Ok(())
}

#[test]
fn judges_edited_proofs(rt: HostRuntime) -> Result<(), Fail> {
    let formula = with_goal(rt.alloc())?;
    let table = [
        ("7 -5 0 4 5 0\n8 0 6 7 0\n", Ok(2)),
        ("7 -5 0 5 4 0\n8 0 6 7 0\n", Ok(2)),
        ("17 -5 0 5 4 0\n28 0 6 17 0\n", Ok(2)),
        ("7 -5 0 5 0\n8 0 6 7 0\n", Err(LratFault::Hint { n: 1 })),
        ("7 -5 0 4 5 0\n8 0 6 5 4 0\n", Ok(2)),
        ("7 -5 0 4 5 0\n8 0 5 6 4 0\n", Err(LratFault::Hint { n: 2 })),
        ("7 -5 0 4 5 0\n", Err(LratFault::NoEmpty)),
        ("", Err(LratFault::NoEmpty)),
        ("7 -5 0 0\n", Err(LratFault::Hint { n: 1 })),
        ("6 -5 0 4 5 0\n8 0 6 7 0\n", Err(LratFault::Line { n: 1 })),
        ("7 -5 0 4 5 0\n7 0 6 7 0\n", Err(LratFault::Line { n: 2 })),
        ("7 -5 0 4 5 7 0\n", Err(LratFault::Line { n: 1 })),
        ("7 -5 0 4 5 0 0\n", Err(LratFault::Line { n: 1 })),
        ("7 -5 0 4 5 -1 0\n", Err(LratFault::Line { n: 1 })),
        ("7 -5 5 0 4 5 0\n", Err(LratFault::Line { n: 1 })),
        ("7 -6 0 4 5 0\n", Err(LratFault::Line { n: 1 })),
        ("7 -5 0 4 5 0", Err(LratFault::Line { n: 1 })),
        ("7 d 1 0\n", Err(LratFault::Line { n: 1 })),
        (
            "7 -5 0 4 5 0\n8 0 6 7 0\n9 0 9 0\n",
            Err(LratFault::Line { n: 3 }),
        ),
        (
            "7 -5 0 4 5 0\n8 0 6 7 0\n9 0 4 0\n",
            Err(LratFault::Hint { n: 3 }),
        ),
    ];
    for (text, wanted) in table {
        let got = accept(rt.alloc(), &formula, 5, text.as_bytes());
        assert_eq!(rt; got, wanted, "{text:?}");
    }
    Ok(())
}

#[test]
fn derivations_are_exported(rt: HostRuntime) -> Result<(), Fail> {
    let table = [
        ("6 -5 0 5 4 0\n", "7 -5 0 4 5 0\n8 0 6 7 0\n"),
        ("6 -5 0 4 5 0\n7 -5 0 6 0\n", "7 -5 0 5 4 0\n8 0 6 7 0\n"),
    ];
    let formula = small_formula(rt.alloc())?;
    for (lines, wanted) in table {
        let Ok(log) = Log::from_text(rt.alloc(), &formula, 5, lines.as_bytes(), 4) else {
            panic!(rt; "the lines are good");
        };
        let Some(last) = log.refuting(5) else {
            panic!(rt; "a line refutes");
        };
        let text = lrat(rt.alloc(), &log, 5, last)?;
        assert_eq!(rt; text.as_slice(), wanted.as_bytes());
        let count = accept(rt.alloc(), &with_goal(rt.alloc())?, 5, &text);
        assert_eq!(rt; count, Ok(2));
    }
    Ok(())
}
