//! The numbers of two zones that a slot joins.

ghost use Rattle.std.specs.Prelude.{◌≡◌, IfOk};

use crate::tests::items::{at, leaves, ord, performed, swapped, uses};
use crate::tests::settings::{pair_of_four, placed, two_zones, variables};
use std::alloc::Global;
use std::process::Abort;
use std::test::Fail;
use step_rules::Setting;
use step_vars::{Encoding, Item, Vars};

// The variables of one step where two qubits are in each of two zones.
fn vars(rt: &impl Abort, alloc: Global, encoding: Encoding) -> Result<Vars, Fail>
    ensures { IfOk result (λ vars. vars.steps ≡ 1) }
{
    let trap = two_zones(alloc)?;
    let circuit = pair_of_four(alloc)?;
    let placement = placed(alloc, &trap, &circuit, &[&[0, 1], &[2, 3]])?;
    let setting = Setting {
        trap: &trap,
        circuit: &circuit,
        placement: &placement,
    };
    variables(rt, alloc, &setting, 1, encoding)
}

// Compares each number up to the last with that of its item; the helpers are from the first one to the goal.
fn inverts(rt: &impl Abort, vars: &Vars, first: u32, last: u32) {
    for before in 0..last {
        let var = before + 1;
        match vars.item(var) {
            Some(item) => assert!(rt;
                vars.number(&item) == Some(var) && (var < first || var == last)
            ),
            None => assert!(rt; first <= var && var < last),
        }
    }
}

#[test]
fn two_zones_in_both_encodings(rt: HostRuntime) -> Result<(), Fail> {
    let alloc = rt.alloc();
    for (encoding, last) in [(Encoding::Pairwise, 73), (Encoding::Counter, 88)] {
        let vars = vars(&rt, alloc, encoding)?;
        assert!(rt; vars.count(0) == 20);
        assert!(rt; vars.number(&Item::Goal { time: 0 }) == Some(20));
        assert!(rt; vars.count(1) == last);
        assert!(rt; vars.number(&Item::Goal { time: 1 }) == Some(last));
        assert!(rt; vars.first_helper(1) == 73);
        inverts(&rt, &vars, 73, last);
        assert!(rt; vars.item(0) == None);
        assert!(rt; vars.item(last + 1) == None);
    }
    Ok(())
}

#[test]
fn numbers_of_items(rt: HostRuntime) -> Result<(), Fail> {
    let vars = vars(&rt, rt.alloc(), Encoding::Pairwise)?;
    let numbers = [
        (at(1, 2, 0), Some(6)),
        (ord(0, 2, 0), Some(14)),
        (at(0, 0, 1), Some(21)),
        (ord(2, 3, 1), Some(38)),
        (uses(3, 1), Some(42)),
        (leaves(2, 1, 1), Some(52)),
        (swapped(1, 2, 1, 1), Some(66)),
        (performed(0, 0, 1), Some(71)),
        (performed(0, 1, 1), None),
        (uses(4, 1), None),
        (uses(0, 0), None),
        (ord(2, 1, 0), None),
        (at(0, 0, 2), None),
    ];
    for (item, number) in numbers {
        assert!(rt; vars.number(&item) == number);
    }
    Ok(())
}
