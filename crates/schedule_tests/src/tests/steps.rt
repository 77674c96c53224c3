//! Schedules of given steps.

use qc_base::NoMemory;
use std::alloc::Global;
use std::process::Abort;
use step_rules::{Action, Schedule};

// Adds the actions to the last step.
fn add_actions(
    rt: &impl Abort,
    schedule: &mut Schedule,
    actions: &[Action],
) -> Result<(), NoMemory> {
    for action in actions {
        assert!(rt; !schedule.steps().is_empty());
        schedule.push_action(*action)?;
    }
    Ok(())
}

/// The schedule of these steps.
pub fn schedule_of(
    rt: &impl Abort,
    alloc: Global,
    steps: &[&[Action]],
) -> Result<Schedule, NoMemory> {
    let mut schedule = Schedule::new(alloc);
    for actions in steps {
        schedule.push_step()?;
        add_actions(rt, &mut schedule, actions)?;
    }
    Ok(schedule)
}

/// Whether the schedule has these steps.
pub fn has_steps(schedule: &Schedule, steps: &[&[Action]]) -> bool {
    if schedule.steps().len() != steps.len() {
        return false;
    }
    for (step, actions) in schedule.steps().iter().zip(steps) {
        if step.actions() != *actions {
            return false;
        }
    }
    true
}
