//! Schedules that are read back from the values that they fix.

ghost use Rattle.std.specs.Prelude.{◌≡◌, ◌≤◌, ◌+◌, ◌++◌, IsTrue, length, IfOk, OnOk};
ghost use Rattle.sat_base.specs.Valuation.{valuation_of};
ghost use Rattle.step_rules.specs.Placement.{IsPlacement};
ghost use Rattle.step_vars.specs.Numbering.{before};
ghost use Rattle.step_vars.specs.Encoding.{IsSmall, vars_of, part_of, encoding_of};
ghost use Rattle.step_models.specs.Models.{IsModel};

use crate::tests::items::{at, done, leaves, ord, performed, swapped, uses};
use crate::tests::settings::{pair_of_four, placed, two_zones, variables};
use circuit_core::Circuit;
use extract::schedule_of;
use qc_base::{End, NoMemory, OpId, PlaceId};
use samples::{circuit_of, cx, zones_apart};
use sat_base::{Assignment, Formula};
use std::alloc::Global;
use std::process::Abort;
use std::test::Fail;
use step_clauses::{goal, layer};
use step_models::parts_name_their_variables;
use step_rules::{Action, Schedule, Setting, traps_and_circuits_are_sound};
use step_vars::{Claim, Encoding, Item, Vars};
use trap_model::Need;

// The values in which these items alone are true.
fn values_of(
    rt: &impl Abort,
    alloc: Global,
    vars: &Vars,
    last: u32,
    items: &[Item],
) -> Result<Assignment, NoMemory>
    requires { last ≤ vars.now.steps }
    ensures { IfOk result (λ values. length values ≡ before vars.now.numbering (last + 1)) }
{
    let count = vars.count(last);
    let mut values = Assignment::new(alloc, count)?;
    for item in items {
        let var = vars.number(item).unwrap_or(0);
        assert!(rt; 1 <= var && var <= count);
        values.set(var, true);
    }
    Ok(values)
}

// Adds the clauses of a part.
fn add_part(
    alloc: Global,
    vars: &Vars,
    setting: &Setting,
    time: u32,
    out: &mut Formula,
) -> Result<(), NoMemory>
    requires vars { vars.now ≡ vars_of setting.now vars.now.encoding vars.now.steps }
    requires small { IsSmall setting.now vars.now.steps }
    requires placed { IsPlacement setting.now.trap setting.now.circuit setting.now.placement }
    requires time { time ≤ vars.now.steps }
    ensures { OnOk result (out.new ≡ out.old ++ part_of setting.now vars.now.encoding time) }
{
    let (trap, circuit, placement) = (setting.trap, setting.circuit, setting.placement);
    layer(alloc, vars, trap, circuit, placement, time, out)?;
    goal(alloc, vars, trap, circuit, placement, time, out)
}

// The clauses of the parts up to a time.
fn clauses(alloc: Global, vars: &Vars, setting: &Setting, last: u32) -> Result<Formula, NoMemory>
    requires vars { vars.now ≡ vars_of setting.now vars.now.encoding vars.now.steps }
    requires small { IsSmall setting.now vars.now.steps }
    requires placed { IsPlacement setting.now.trap setting.now.circuit setting.now.placement }
    requires time { last ≤ vars.now.steps }
    ensures { IfOk result (λ formula. formula ≡ encoding_of setting.now vars.now.encoding last) }
{
    let mut formula = Formula::new(alloc);
    add_part(alloc, vars, setting, 0, &mut formula)?;
    for time in 0..last {
        add_part(alloc, vars, setting, time + 1, &mut formula)?;
    }
    Ok(formula)
}

// Whether these values are a model of the parts up to a time.
fn is_model(
    vars: &Vars,
    setting: &Setting,
    last: u32,
    formula: &Formula,
    values: &Assignment,
) -> bool
    requires vars { vars.now ≡ vars_of setting.now vars.now.encoding vars.now.steps }
    requires small { IsSmall setting.now vars.now.steps }
    requires placed { IsPlacement setting.now.trap setting.now.circuit setting.now.placement }
    requires time { last ≤ vars.now.steps }
    requires formula { formula.now ≡ encoding_of setting.now vars.now.encoding last }
    requires values { length values.now ≡ before vars.now.numbering (last + 1) }
    ensures { IsTrue result → IsModel setting.now vars.now.encoding last (valuation_of values.now) }
{
    parts_name_their_variables();
    traps_and_circuits_are_sound(setting.trap, setting.circuit);
    if !values.satisfies(formula) {
        return false;
    }
    let goal = vars.lit(&Claim::so(Item::Goal { time: last }));
    values.value(goal.var())
}

// The schedule of the values in which these items alone are true, which are a model.
fn read_back(
    rt: &impl Abort,
    alloc: Global,
    setting: &Setting,
    last: u32,
    items: &[Item],
) -> Result<Schedule, Fail>
    requires { IsPlacement setting.now.trap setting.now.circuit setting.now.placement }
{
    let vars = variables(rt, alloc, setting, last, Encoding::Pairwise)?;
    let values = values_of(rt, alloc, &vars, last, items)?;
    let formula = clauses(alloc, &vars, setting, last)?;
    assert!(rt; is_model(&vars, setting, last, &formula, &values));
    let (trap, circuit, placement) = (setting.trap, setting.circuit, setting.placement);
    let schedule = schedule_of(alloc, &vars, trap, circuit, placement, &values, last)?;
    Ok(schedule)
}

// Whether the schedule has these steps.
fn is(schedule: &Schedule, steps: &[&[Action]]) -> bool {
    let actions = schedule.steps().iter().map(|step| step.actions());
    actions.eq(steps.iter().copied())
}

const SPLIT: Action = Action::Split {
    zone: PlaceId(1),
    end: End::A,
    count: 1,
};

const MERGE: Action = Action::Merge {
    zone: PlaceId(0),
    end: End::B,
};

const SWAP: Action = Action::Swap {
    zone: PlaceId(0),
    index: 0,
};

const PERFORM: Action = Action::Op {
    zone: PlaceId(0),
    op: OpId(0),
};

// Ion 2 goes from zone 1 by the slot into zone 0, where the operation is performed.
fn meeting() -> [Item; 25] {
    [
        at(0, 0, 0),
        at(1, 0, 0),
        at(2, 1, 0),
        at(3, 1, 0),
        ord(2, 3, 0),
        uses(2, 1),
        leaves(2, 2, 1),
        at(0, 0, 1),
        at(1, 0, 1),
        at(2, 2, 1),
        at(3, 1, 1),
        uses(1, 2),
        leaves(2, 1, 2),
        at(0, 0, 2),
        at(1, 0, 2),
        at(2, 0, 2),
        at(3, 1, 2),
        performed(0, 0, 3),
        at(0, 0, 3),
        at(1, 0, 3),
        at(2, 0, 3),
        at(3, 1, 3),
        done(0, 3),
        Item::Goal { time: 3 },
        ord(0, 1, 0),
    ]
}

#[test]
fn four_qubits_across_two_zones(rt: HostRuntime) -> Result<(), Fail> {
    let alloc = rt.alloc();
    let trap = two_zones(alloc)?;
    let circuit = pair_of_four(alloc)?;
    let placement = placed(alloc, &trap, &circuit, &[&[0, 1], &[2, 3]])?;
    let setting = Setting {
        trap: &trap,
        circuit: &circuit,
        placement: &placement,
    };
    let mut items = Vec::from_array(alloc, meeting())?;
    items.extend_from_slice(&[ord(0, 2, 2), ord(1, 2, 2), ord(0, 2, 3), ord(1, 2, 3)])?;
    let mut straight = items.clone()?;
    straight.extend_from_slice(&[ord(0, 1, 1), ord(0, 1, 2), ord(0, 1, 3)])?;
    let schedule = read_back(&rt, alloc, &setting, 3, &straight)?;
    assert!(rt; is(&schedule, &[&[SPLIT], &[MERGE], &[PERFORM]]));
    items.push(swapped(0, 1, 0, 1))?;
    let schedule = read_back(&rt, alloc, &setting, 3, &items)?;
    assert!(rt; is(&schedule, &[&[SPLIT, SWAP], &[MERGE], &[PERFORM]]));
    Ok(())
}

// How many clauses part 0 has, and parts 0 and 1 together.
fn counts(
    rt: &impl Abort,
    alloc: Global,
    setting: &Setting,
    encoding: Encoding,
) -> Result<(u64, u64), Fail>
    requires { IsPlacement setting.now.trap setting.now.circuit setting.now.placement }
{
    let vars = variables(rt, alloc, setting, 1, encoding)?;
    let first = clauses(alloc, &vars, setting, 0)?;
    let both = clauses(alloc, &vars, setting, 1)?;
    Ok((first.len(), both.len()))
}

#[test]
fn clauses_of_two_zones(rt: HostRuntime) -> Result<(), Fail> {
    let alloc = rt.alloc();
    let trap = two_zones(alloc)?;
    let circuit = pair_of_four(alloc)?;
    let placement = placed(alloc, &trap, &circuit, &[&[0, 1], &[2, 3]])?;
    let setting = Setting {
        trap: &trap,
        circuit: &circuit,
        placement: &placement,
    };
    assert!(rt; counts(&rt, alloc, &setting, Encoding::Pairwise)? == (20, 20 + 415));
    assert!(rt; counts(&rt, alloc, &setting, Encoding::Counter)? == (20, 20 + 394));
    Ok(())
}

#[test]
fn two_qubits_in_one_zone(rt: HostRuntime) -> Result<(), Fail> {
    let alloc = rt.alloc();
    let trap = zones_apart(alloc, &[(4, &[Need::Two])])?;
    let circuit = circuit_of(alloc, 2, 0, Vec::from_array(alloc, [cx(0, 1)])?)?;
    let placement = placed(alloc, &trap, &circuit, &[&[0, 1]])?;
    let setting = Setting {
        trap: &trap,
        circuit: &circuit,
        placement: &placement,
    };
    let items = [
        at(0, 0, 0),
        at(1, 0, 0),
        ord(0, 1, 0),
        swapped(0, 1, 0, 1),
        at(0, 0, 1),
        at(1, 0, 1),
        performed(0, 0, 2),
        at(0, 0, 2),
        at(1, 0, 2),
        done(0, 2),
        Item::Goal { time: 2 },
    ];
    let schedule = read_back(&rt, alloc, &setting, 2, &items)?;
    assert!(rt; is(&schedule, &[&[SWAP], &[PERFORM]]));
    Ok(())
}

#[test]
fn no_qubit(rt: HostRuntime) -> Result<(), Fail> {
    let alloc = rt.alloc();
    let trap = two_zones(alloc)?;
    let circuit = Circuit::new(Vec::new(alloc), Vec::new(alloc), Vec::new(alloc));
    let placement = placed(alloc, &trap, &circuit, &[&[], &[]])?;
    let setting = Setting {
        trap: &trap,
        circuit: &circuit,
        placement: &placement,
    };
    for last in 0..3 {
        let schedule = read_back(&rt, alloc, &setting, last, &[Item::Goal { time: last }])?;
        assert!(rt; schedule.steps().len() == last as usize);
        assert!(rt;
            schedule
                .steps()
                .iter()
                .all(|step| step.actions().is_empty())
        );
    }
    Ok(())
}
