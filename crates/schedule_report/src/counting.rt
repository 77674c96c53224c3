//! How many steps, actions and operations a schedule has.

ghost use Rattle.std.specs.Prelude.{◌≡◌};
ghost use Rattle.qc_base.specs.Counting.{how_many};
ghost use Rattle.schedule_report.specs.Counts.{is_operation, counts_of};

use crate::totals::Counts;
use step_rules::{Action, Schedule};

fn is_operation(action: &Action) -> bool
    ensures { result ≡ is_operation action.now }
{
    matches!(action, Action::Op { .. })
}

/// How many of these actions perform operations.
pub(crate) fn operations_in(actions: &[Action]) -> u64
    ensures { result ≡ how_many is_operation actions.now }
{
    let mut count = 0;
    for action in actions {
        if is_operation(action) {
            count += 1;
        }
    }
    count
}

/// The counts of a schedule. It takes no memory.
#[tactic(auto, using(crate::proofs::Steps::actions_counted, crate::proofs::Steps::operations_counted))]
pub fn counts(schedule: &Schedule) -> Counts
    ensures { result ≡ counts_of schedule.now }
{
    let steps = schedule.steps();
    let mut actions: u64 = 0;
    let mut ops: u64 = 0;
    for step in steps {
        actions = actions.saturating_add(step.actions().len() as u64);
        ops = ops.saturating_add(operations_in(step.actions()));
    }
    Counts {
        steps: steps.len() as u64,
        actions,
        ops,
    }
}
