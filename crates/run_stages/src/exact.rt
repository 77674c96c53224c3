//! From a circuit and a trap to a schedule with the fewest steps, and to a certificate that there is no
//! shorter one.

ghost use Rattle.std.specs.Prelude.{◌≡◌, ◌≢◌, ◌≤◌, [], length, IfOk, IfErr};
ghost use Rattle.sat_base.specs.Certificate.{certificate_text};
ghost use Rattle.derivation_log.specs.Printing.{first_lines, Covers};
ghost use Rattle.step_rules.specs.Placement.{IsPlacement};
ghost use Rattle.schedule_text.specs.Text.{schedule_text};
ghost use Rattle.step_vars.specs.declared.encoding.Encoding.TheVariants.{Counter};
ghost use Rattle.step_vars.specs.Certifies.{head_of, asked};
ghost use Rattle.exact_search.specs.Found.{IsFound, RefutesFewer};
ghost use Rattle.placement.specs.Placing.{FitsZones};
ghost use Rattle.request_words.specs.declared.file.File.{File};
ghost use Rattle.request_words.specs.Seen.{search_of};
ghost use Rattle.run_answers.specs.declared.answer.Answer.{Answer as AnAnswer};
ghost use Rattle.run_stages.specs.Prepare.{Sought, searched_count, search_refusal, setting_from, within_search};
ghost use Rattle.run_stages.specs.Stages.{Is};
ghost use Rattle.run_stages.specs.Work.{fewest, Ends};
ghost use Rattle.run_stages.specs.Putting.{EndsWith};
ghost use Rattle.run_stages.specs.Loading.{Finishes, IsOfRequest};

use crate::compile::{place_refusal, text_of};
use crate::ending::Ending;
use crate::inputs::Inputs;
use derivation_log::Log;
use exact_search::{Count, ExactFault, Found, found_lines_certify, least};
use placement::{PlaceRule, place};
use put_file::{Certificate, Put};
use qc_base::{Items, NoMemory};
use request_words::Exact;
use run_answers::{Answer, Large};
use sat_base::{Bound, Head};
use std::alloc::Global;
use step_rules::{Placement, Schedule, Setting};

/// The number of the encoding that the search uses, in the head of its certificates.
const ENCODING: u32 = 2;

// What has a limit in exact mode.
fn searched_count(count: Count) -> Large
    ensures { result ≡ searched_count count }
{
    match count {
        Count::Ions => Large::Ions,
        Count::Places => Large::Places,
        Count::Ops => Large::Operations,
        Count::Max => Large::Steps,
    }
}

// The answer where there is no search.
fn search_refusal(fault: ExactFault) -> Answer
    ensures answer { result ≡ search_refusal fault }
    ensures refusal { IsOfRequest result }
    ensures read { (file : File) → result ≢ AnAnswer.ReadFault file }
{
    match fault {
        ExactFault::TooLarge { what, count } => Answer::TooLarge {
            what: searched_count(what),
            count,
        },
        ExactFault::NoMemory => Answer::NoMemory,
    }
}

// A head of the search's encoding.
fn head(bound: Bound) -> Head
    ensures { result ≡ head_of Counter bound }
{
    Head {
        encoding: ENCODING,
        bound,
    }
}

// What is refuted of a schedule with so many steps.
fn asked(steps: u32) -> Bound
    ensures { result ≡ asked steps }
{
    if steps == 0 {
        Bound::Nothing
    } else {
        Bound::Refutes(steps - 1)
    }
}

// A schedule with the fewest steps is written, and its certificate put.
fn shortest(
    alloc: Global,
    setting: &Setting,
    schedule: &Schedule,
    log: Log,
    axioms: u64,
    lines: u64,
) -> Result<Ending, NoMemory>
    requires fewer { RefutesFewer setting.now (length schedule.now) log axioms lines }
    requires few { length schedule.now ≤ 48 }
    ensures { IfOk result (λ ending. EndsWith AnAnswer.Ok
        (certificate_text (head_of Counter (asked (length schedule.now))) axioms (first_lines log axioms lines))
        (schedule_text setting.now schedule.now) ending) }
{
    let text = text_of(alloc, setting, schedule)?;
    let steps = schedule.steps().len() as u32;
    let certificate = Certificate::new(alloc, log, head(asked(steps)), axioms, lines)?;
    Ok(Ending {
        answer: Answer::Ok,
        put: Some(Put::lines(certificate)),
        text,
    })
}

// There is no schedule that is short enough: a certificate is put, and nothing is written.
fn unfound(
    alloc: Global,
    answer: Answer,
    bound: Bound,
    log: Log,
    lines: u64,
) -> Result<Ending, NoMemory>
    requires { Covers log (length log.axioms) lines }
    ensures { IfOk result (λ ending. EndsWith answer
        (certificate_text (head_of Counter bound) (length log.axioms) (first_lines log (length log.axioms) lines))
        [] ending) }
{
    let axioms = log.axioms();
    let certificate = Certificate::new(alloc, log, head(bound), axioms, lines)?;
    Ok(Ending {
        answer,
        put: Some(Put::lines(certificate)),
        text: Items::from_vec(Vec::new(alloc)),
    })
}

// What a search ends with.
fn ending_of(
    alloc: Global,
    setting: &Setting,
    max: u32,
    budget: u64,
    found: Found,
) -> Result<Ending, NoMemory>
    requires found { IsFound setting.now max budget found }
    requires few { max ≤ 48 }
    ensures { IfOk result (λ ending. Ends (fewest setting.now max budget) ending.answer ending) }
{
    found_lines_certify();
    match found {
        Found::Least {
            schedule,
            log,
            axioms,
            lines,
        } => shortest(alloc, setting, &schedule, log, axioms, lines),
        Found::NoneWithin { log, lines } => {
            let answer = Answer::NoneWithin { max: max as u64 };
            unfound(alloc, answer, Bound::Refutes(max), log, lines)
        }
        Found::Spent { log, bound } => {
            let lines = log.derived();
            unfound(
                alloc,
                Answer::Budget { budget },
                Bound::Open(bound),
                log,
                lines,
            )
        }
    }
}

// What a search from the placement ends with, or what is too large for it.
fn searched(
    alloc: Global,
    inputs: &Inputs,
    placement: &Placement,
    exact: &Exact,
) -> Result<Ending, Answer>
    requires { IsPlacement inputs.now.trap inputs.now.circuit placement.now }
    ensures done { Finishes (Is (within_search (setting_from inputs.now placement.now) (search_of exact.now)))
        result }
    ensures refusal { IfErr result IsOfRequest }
    ensures read { IfErr result (λ answer. (file : File) → answer ≢ AnAnswer.ReadFault file) }
{
    let setting = Setting {
        trap: &inputs.trap,
        circuit: &inputs.circuit,
        placement,
    };
    match least(
        alloc,
        &inputs.trap,
        &inputs.circuit,
        placement,
        exact.max,
        exact.budget,
    ) {
        Ok(found) => match ending_of(alloc, &setting, exact.max as u32, exact.budget, found) {
            Ok(ending) => Ok(ending),
            Err(NoMemory) => Err(Answer::NoMemory),
        },
        Err(fault) => Err(search_refusal(fault)),
    }
}

/// What a search from the placement of the rule ends with: a schedule with the fewest steps, and a
/// certificate; or that there is none, or that the budget is spent.
pub fn sought(
    alloc: Global,
    inputs: &Inputs,
    rule: PlaceRule,
    exact: &Exact,
) -> Result<Ending, Answer>
    requires { FitsZones inputs.now.trap inputs.now.labels }
    ensures done { Finishes (Sought rule (search_of exact.now) inputs.now) result }
    ensures refusal { IfErr result IsOfRequest }
    ensures read { IfErr result (λ answer. (file : File) → answer ≢ AnAnswer.ReadFault file) }
{
    match place(
        alloc,
        &inputs.trap,
        &inputs.circuit,
        rule,
        inputs.labels.as_ref(),
    ) {
        Ok(placement) => searched(alloc, inputs, &placement, exact),
        Err(fault) => Err(place_refusal(fault)),
    }
}
