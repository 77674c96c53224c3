//! From a circuit and a trap to the text of a schedule.

ghost use Rattle.std.specs.Prelude.{◌≡◌, ◌≢◌, None, IfOk, IfErr};
ghost use Rattle.step_rules.specs.Placement.{IsPlacement};
ghost use Rattle.step_rules.specs.Play.{Plays};
ghost use Rattle.step_rules.specs.Tight.{IsTight};
ghost use Rattle.schedule_text.specs.Text.{schedule_text};
ghost use Rattle.greedy_router.specs.Room.{HasRoom};
ghost use Rattle.request_words.specs.declared.file.File.{File};
ghost use Rattle.run_answers.specs.declared.answer.Answer.{Answer as AnAnswer};
ghost use Rattle.placement.specs.Placing.{FitsZones};
ghost use Rattle.run_stages.specs.Prepare.{Routed, Planned, setting_from};
ghost use Rattle.run_stages.specs.Work.{IsTightTextOf, IsRouted};
ghost use Rattle.run_stages.specs.Loading.{Finishes, IsOfRequest, place_refusal, room_refusal};

use crate::ending::{Ending, written};
use crate::inputs::Inputs;
use compact::tighten;
use greedy_router::{RoomFault, room, serial};
use placement::{PlaceFault, PlaceRule, place};
use qc_base::{Items, NoMemory};
use run_answers::Answer;
use std::alloc::Global;
use step_rules::{Placement, Schedule, Setting};

/// A schedule that plays from the placement and wastes no step.
pub fn tight_schedule(alloc: Global, setting: &Setting) -> Result<Schedule, NoMemory>
    requires room { HasRoom setting.now }
    requires placed { IsPlacement setting.now.trap setting.now.circuit setting.now.placement }
    ensures plays { IfOk result (λ schedule. Plays setting.now schedule) }
    ensures tight { IfOk result (λ schedule. IsTight setting.now schedule) }
    ensures routed { IfOk result (λ schedule. IsRouted setting.now schedule) }
{
    let actions = serial(alloc, setting.trap, setting.circuit, setting.placement)?;
    let schedule = tighten(
        alloc,
        setting.trap,
        setting.circuit,
        setting.placement,
        actions.as_slice(),
    )?;
    Ok(schedule)
}

/// The text of a schedule from the placement of its setting.
pub fn text_of(alloc: Global, setting: &Setting, schedule: &Schedule) -> Result<Items<u8>, NoMemory>
    ensures { IfOk result (λ text. text ≡ schedule_text setting.now schedule.now) }
{
    let text = schedule_text::print(
        alloc,
        setting.trap,
        setting.circuit,
        setting.placement,
        schedule,
    )?;
    Ok(Items::from_vec(text))
}

// The answer where there is no room.
fn room_refusal(fault: RoomFault) -> Answer
    ensures answer { result ≡ room_refusal fault }
    ensures refusal { IsOfRequest result }
    ensures read { (file : File) → result ≢ AnAnswer.ReadFault file }
{
    match fault {
        RoomFault::NoMemory => Answer::NoMemory,
        _ => Answer::Room(fault),
    }
}

// The text of a schedule from the placement, where there is room.
fn compiled_text(alloc: Global, setting: &Setting) -> Result<Items<u8>, NoMemory>
    requires room { HasRoom setting.now }
    requires placed { IsPlacement setting.now.trap setting.now.circuit setting.now.placement }
    ensures { IfOk result (λ text. IsTightTextOf setting.now text) }
{
    let schedule = tight_schedule(alloc, setting)?;
    let text = text_of(alloc, setting, &schedule)?;
    Ok(text)
}

// The text of a schedule from the placement, or why there is no room for one.
fn routed(alloc: Global, inputs: &Inputs, placement: &Placement) -> Result<Ending, Answer>
    requires { IsPlacement inputs.now.trap inputs.now.circuit placement.now }
    ensures done { Finishes (Routed (setting_from inputs.now placement.now)) result }
    ensures none { IfOk result (λ ending. ending.put ≡ None) }
    ensures refusal { IfErr result IsOfRequest }
    ensures read { IfErr result (λ answer. (file : File) → answer ≢ AnAnswer.ReadFault file) }
{
    let setting = Setting {
        trap: &inputs.trap,
        circuit: &inputs.circuit,
        placement,
    };
    match room(alloc, &inputs.trap, &inputs.circuit, placement) {
        Ok(()) => match compiled_text(alloc, &setting) {
            Ok(text) => Ok(written(text)),
            Err(NoMemory) => Err(Answer::NoMemory),
        },
        Err(fault) => Err(room_refusal(fault)),
    }
}

/// The answer where a rule gives no placement.
pub fn place_refusal(fault: PlaceFault) -> Answer
    ensures answer { result ≡ place_refusal fault }
    ensures refusal { IsOfRequest result }
    ensures read { (file : File) → result ≢ AnAnswer.ReadFault file }
{
    match fault {
        PlaceFault::NoMemory => Answer::NoMemory,
        _ => Answer::Place(fault),
    }
}

/// The text of a schedule from the placement of the rule.
pub fn planned(alloc: Global, inputs: &Inputs, rule: PlaceRule) -> Result<Ending, Answer>
    requires { FitsZones inputs.now.trap inputs.now.labels }
    ensures done { Finishes (Planned rule inputs.now) result }
    ensures none { IfOk result (λ ending. ending.put ≡ None) }
    ensures refusal { IfErr result IsOfRequest }
    ensures read { IfErr result (λ answer. (file : File) → answer ≢ AnAnswer.ReadFault file) }
{
    match place(
        alloc,
        &inputs.trap,
        &inputs.circuit,
        rule,
        inputs.labels.as_ref(),
    ) {
        Ok(placement) => routed(alloc, inputs, &placement),
        Err(fault) => Err(place_refusal(fault)),
    }
}
