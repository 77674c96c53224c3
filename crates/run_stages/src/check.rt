//! What is said of a schedule that plays.

ghost use Rattle.std.specs.Prelude.{◌≡◌, None, IfOk, IfErr};
ghost use Rattle.run_answers.specs.declared.answer.Answer.{Answer};
ghost use Rattle.run_stages.specs.Prepare.{check_refusal, setting_with, JudgedIn};
ghost use Rattle.run_stages.specs.Judging.{as_work};
ghost use Rattle.run_stages.specs.Work.{written, Ends};
ghost use Rattle.run_stages.specs.Loading.{Finishes, IsOfContent};

use crate::ending::{Ending, written};
use crate::inputs::Inputs;
use qc_base::{Items, NoMemory};
use run_answers::Answer;
use schedule_report::{legal_line, report};
use std::alloc::Global;
use step_rules::Setting;
use verify_core::{CheckFault, Checked, check};

/// What is said of a schedule that plays.
#[derive(Clone, Copy, Debug, PartialEq, Eq)]
pub enum Saying {
    /// The line of a check.
    Line,
    /// The report.
    Report,
}

// What is said of a schedule that plays.
fn said(
    alloc: Global,
    inputs: &Inputs,
    checked: &Checked,
    saying: Saying,
) -> Result<Items<u8>, NoMemory>
    ensures { IfOk result (λ text.
        Ends (as_work saying (setting_with inputs.now checked.now) checked.now.schedule) Answer.Ok (written text)) }
{
    let text = match saying {
        Saying::Line => legal_line(alloc, &checked.schedule)?,
        Saying::Report => {
            let setting = Setting {
                trap: &inputs.trap,
                circuit: &inputs.circuit,
                placement: &checked.placement,
            };
            report(alloc, &setting, &checked.schedule)?
        }
    };
    Ok(Items::from_vec(text))
}

/// The answer to bytes that are no text of a schedule that plays.
pub fn check_refusal(fault: CheckFault) -> Answer
    ensures answer { result ≡ check_refusal fault }
    ensures kind { IsOfContent result }
{
    match fault {
        CheckFault::Text(line) => Answer::Text { line },
        CheckFault::Illegal(fault) => Answer::Illegal(fault),
        CheckFault::NoMemory => Answer::NoMemory,
    }
}

/// What is said of the schedule that the bytes are the text of, or the first bad line, or the first fault.
pub fn judged(
    alloc: Global,
    inputs: &Inputs,
    bytes: &[u8],
    saying: Saying,
) -> Result<Ending, Answer>
    ensures done { Finishes (JudgedIn (as_work saying) inputs.now bytes.now) result }
    ensures none { IfOk result (λ ending. ending.put ≡ None) }
    ensures kind { IfErr result IsOfContent }
{
    match check(alloc, &inputs.trap, &inputs.circuit, bytes) {
        Ok(checked) => match said(alloc, inputs, &checked, saying) {
            Ok(text) => Ok(written(text)),
            Err(NoMemory) => Err(Answer::NoMemory),
        },
        Err(fault) => Err(check_refusal(fault)),
    }
}
