//! Small formulas, and clauses that resolve or don't.

use sat_base::{Assignment, Formula, Lit, LitSet, Resolution};
use std::process::Abort;
use std::test::Fail;

#[test]
fn literals(rt: HostRuntime) -> Result<(), Fail> {
    let top = Lit::new(2_147_483_647, true);
    assert!(rt; top.var() == 2_147_483_647 && top.positive());
    assert!(rt; !top.negated().positive() && top.negated().negated() == top);
    assert!(rt; Lit::new(1, false) != Lit::new(1, true));
    Ok(())
}

#[test]
fn clauses_in_order(rt: HostRuntime) -> Result<(), Fail> {
    let x = Lit::new(1, true);
    let y = Lit::new(2, true);
    let mut formula = Formula::new(rt.alloc());
    assert!(rt; formula.is_empty());
    formula.push(&[x, y])?;
    formula.push(&[])?;
    formula.push(&[y.negated()])?;
    assert!(rt; formula.len() == 3);
    assert!(rt; formula.clause(1) == [x, y].as_slice());
    assert!(rt; formula.clause(2).is_empty());
    assert!(rt; formula.clause(3) == [y.negated()].as_slice());
    Ok(())
}

#[test]
fn satisfied(rt: HostRuntime) -> Result<(), Fail> {
    let x = Lit::new(1, true);
    let y = Lit::new(2, true);
    let mut formula = Formula::new(rt.alloc());
    let mut values = Assignment::new(rt.alloc(), 2)?;
    assert!(rt; values.satisfies(&formula));
    formula.push(&[x, y])?;
    assert!(rt; !values.satisfies(&formula));
    values.set(2, true);
    assert!(rt; values.value(2) && !values.value(1));
    assert!(rt; values.satisfies(&formula));
    formula.push(&[x, y.negated()])?;
    assert!(rt; !values.satisfies(&formula));
    Ok(())
}

#[test]
fn changed_set(rt: HostRuntime) -> Result<(), Fail> {
    let x = Lit::new(1, true);
    let y = Lit::new(2, true);
    let mut set = LitSet::new(rt.alloc());
    set.add_all(&[x, y])?;
    set.insert(x)?;
    set.add_others(&[y.negated(), x.negated()], x.negated())?;
    set.remove(x);
    assert!(rt; set.members().len() == 2 && set.has(y) && set.has(y.negated()));
    set.clear();
    assert!(rt; !set.has(y));
    Ok(())
}

#[test]
fn resolved(rt: HostRuntime) -> Result<(), Fail> {
    let x = Lit::new(1, true);
    let y = Lit::new(2, true);
    let mut so_far = Resolution::new(rt.alloc());
    so_far.start(&[x.negated(), y])?;
    assert!(rt; so_far.join(&[y.negated()])?);
    assert!(rt; so_far.literals() == [x.negated()].as_slice());
    assert!(rt; so_far.gives(&[x.negated()]));
    Ok(())
}

#[test]
fn not_resolved(rt: HostRuntime) -> Result<(), Fail> {
    let x = Lit::new(1, true);
    let y = Lit::new(2, true);
    let mut so_far = Resolution::new(rt.alloc());
    so_far.start(&[x, y])?;
    assert!(rt; !so_far.join(&[x, y])?);
    assert!(rt; !so_far.join(&[x.negated(), y.negated()])?);
    so_far.start(&[x])?;
    assert!(rt; so_far.join(&[x.negated(), y])?);
    assert!(rt; so_far.join(&[y.negated(), x])?);
    assert!(rt; !so_far.join(&[x.negated(), y])?);
    assert!(rt; !so_far.gives(&[x.negated()]));
    Ok(())
}
