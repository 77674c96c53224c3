//! The simulator.

ghost use Rattle.std.specs.Prelude.{◌≡◌, ◌+◌, ◌<◌, ◌++◌, ◌∷◌, [], length, fold, slice_get, Some, IfOk, IfErr, MatchOption, MatchResult};
ghost use Rattle.step_rules.specs.declared.action.Action.{Action as AnAction};
ghost use Rattle.step_rules.specs.Setting.{setting_of};
ghost use Rattle.step_rules.specs.Placement.{IsPlacement, start_of};
ghost use Rattle.step_rules.specs.Config.{IsConfigOf};
ghost use Rattle.step_rules.specs.Footprint.{spots};
ghost use Rattle.step_rules.specs.Steps.{footprint as works_on, after_step};
ghost use Rattle.step_rules.specs.Play.{after_steps, Plays};
ghost use Rattle.schedule_play.specs.Faults.{Explains};
ghost use Rattle.schedule_play.specs.Judging.{before_of, IsWell, Offends};
ghost use Rattle.schedule_play.specs.Progress.{AreFlags, marked, NoneMeets, MeetsAt, OpIsWell, OpOffends};
ghost use Rattle.schedule_play.specs.Progress.{before_next, IsStateBefore, StepIsWell, ExplainsStep, MayBeTaken};
ghost use Rattle.schedule_play.specs.Ready.{AreClosed, IsReadyTable};

use crate::fault::PlayFault;
use crate::progress::Progress;
use circuit_core::Circuit;
use qc_base::OpId;
use std::alloc::Global;
use step_rules::{
    Action, Config, Footprint, Placement, Schedule, Setting, Step, enabled, footprint,
};
use trap_model::Trap;

// The first of these footprints that meets that one.
fn first_meeting(footprints: &[Footprint], works: &Footprint) -> Option<usize>
    ensures { MatchOption result
        (NoneMeets footprints.now (length footprints.now) works.now)
        (MeetsAt footprints.now works.now) }
{
    for (place, other) in footprints.iter().enumerate() {
        if other.meets(works) {
            return Some(place);
        }
    }
    None
}

// Whether the operation may be performed in the step: what has to come before it is done, and it is not.
fn judge_op(
    circuit: &Circuit,
    progress: &Progress,
    past: &[Step],
    op: OpId,
) -> Result<(), PlayFault>
    requires ready { IsReadyTable circuit.now past.now progress.now.ready.items }
    requires earlier { AreFlags circuit.now past.now progress.now.earlier.items }
    requires done { length progress.now.done.items ≡ length circuit.now.ops }
    requires closed { AreClosed circuit.now past.now }
    requires there { op.0 < length circuit.now.ops }
    ensures { MatchResult result
        (λ _. OpIsWell circuit.now progress.now.earlier.items progress.now.done.items op)
        (OpOffends circuit.now progress.now.earlier.items progress.now.done.items (length past.now + 1) op) }
{
    let step = past.len() as u64 + 1;
    if let Some(needs) = progress.owed(circuit, past, op) {
        return Err(PlayFault::Early { step, op, needs });
    }
    if progress.is_done(op) {
        return Err(PlayFault::Twice { step, op });
    }
    Ok(())
}

// Judges the next action of a step, of which as many were judged as there are footprints. Answers what it works
// on.
fn judge(
    setting: &Setting,
    config: &Config,
    progress: &Progress,
    footprints: &[Footprint],
    past: &[Step],
    step: &[Action],
) -> Result<Footprint, PlayFault>
    requires config { IsConfigOf setting.now.trap config.now }
    requires ready { IsReadyTable setting.now.circuit past.now progress.now.ready.items }
    requires next { length footprints.now < length step.now }
    requires state { IsStateBefore setting.now
        (before_next past.now step.now (length footprints.now)) config.now.lists
        progress.now.earlier.items progress.now.done.items footprints.now }
    ensures well { (action : AnAction) → slice_get step.now (length footprints.now) ≡ Some action
        → MatchResult result
        (λ works. IsWell setting.now (before_next past.now step.now (length footprints.now)) action
        × (spots works ≡ works_on setting.now.trap action))
        (Offends setting.now (before_next past.now step.now (length footprints.now)) action) }
{
    let number = past.len() as u64 + 1;
    let place = footprints.len();
    let action = &step[place];
    if let Err(rule) = enabled(
        setting.trap,
        setting.circuit,
        setting.placement,
        config,
        action,
    ) {
        return Err(PlayFault::Broken {
            step: number,
            action: place as u64 + 1,
            rule,
        });
    }
    let works = footprint(setting.trap, action);
    if let Some(first) = first_meeting(footprints, &works) {
        return Err(PlayFault::Shared {
            step: number,
            first: first as u64 + 1,
            second: place as u64 + 1,
        });
    }
    if let Action::Op { op, .. } = *action {
        judge_op(setting.circuit, progress, past, op)?;
    }
    Ok(works)
}

// Judges the actions of a step, all where the step begins.
fn judge_step(
    alloc: Global,
    setting: &Setting,
    config: &Config,
    progress: &mut Progress,
    past: &[Step],
    step: &[Action],
) -> Result<(), PlayFault>
    requires config { IsConfigOf setting.now.trap config.now }
    requires ready { IsReadyTable setting.now.circuit past.now progress.old.ready.items }
    requires state { IsStateBefore setting.now (before_of past.now []) config.now.lists
        progress.old.earlier.items progress.old.done.items [] }
    ensures well { IfOk result (λ _. StepIsWell setting.now past.now step.now) }
    ensures done { IfOk result
        (λ _. AreFlags setting.now.circuit (past.now ++ step.now ∷ []) progress.new.done.items) }
    ensures fault { IfErr result (ExplainsStep setting.now past.now step.now) }
    ensures earlier { progress.new.earlier ≡ progress.old.earlier }
    ensures ready { progress.new.ready ≡ progress.old.ready }
{
    let mut footprints = Vec::new(alloc);
    for action in step {
        let works = judge(setting, config, progress, &footprints, past, step)?;
        footprints.push(works)?;
        progress.note(action);
    }
    Ok(())
}

// Takes a step that was judged.
fn take_step(trap: &Trap, config: &mut Config, progress: &mut Progress, step: &[Action])
    requires config { IsConfigOf trap.now config.old }
    requires legal { MayBeTaken trap.now config.old.lists step.now }
    ensures lists { config.new.lists ≡ after_step trap.now config.old.lists step.now }
    ensures config { IsConfigOf trap.now config.new }
    ensures earlier { progress.new.earlier.items ≡ fold marked progress.old.earlier.items step.now }
    ensures done { progress.new.done ≡ progress.old.done }
    ensures ready { progress.new.ready ≡ progress.old.ready }
{
    for action in step {
        config.apply(trap, action);
        progress.settle(action);
    }
}

/// Plays a schedule from a placement: where the ions are at its end, or its first fault.
pub fn play(
    alloc: Global,
    trap: &Trap,
    circuit: &Circuit,
    placement: &Placement,
    schedule: &Schedule,
) -> Result<Config, PlayFault>
    requires { IsPlacement trap.now circuit.now placement.now }
    ensures plays { IfOk result (λ _. Plays (setting_of trap.now circuit.now placement.now) schedule.now) }
    ensures last { IfOk result
        (λ config. config.lists ≡ after_steps trap.now (start_of trap.now placement.now) schedule.now) }
    ensures config { IfOk result (IsConfigOf trap.now) }
    ensures fault { IfErr result (Explains (setting_of trap.now circuit.now placement.now) schedule.now) }
{
    let setting = Setting {
        trap,
        circuit,
        placement,
    };
    let steps = schedule.steps();
    let mut config = Config::start(alloc, trap, placement)?;
    let mut progress = Progress::start(alloc, circuit, steps)?;
    for (time, step) in steps.iter().enumerate() {
        let actions = step.actions();
        judge_step(
            alloc,
            &setting,
            &config,
            &mut progress,
            &steps[..time],
            actions,
        )?;
        take_step(trap, &mut config, &mut progress, actions);
    }
    match progress.missing(circuit) {
        Some(op) => Err(PlayFault::Missing { op }),
        None => Ok(config),
    }
}
