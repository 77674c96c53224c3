//! A load: a circuit and a trap that are made from a seed, and compiled.

ghost use Rattle.std.specs.Prelude.{IfOk};
ghost use Rattle.run_stages.specs.Work.{loaded, Ends};

use crate::compile::{text_of, tight_schedule};
use crate::ending::Ending;
use load_setup::generate;
use placement::{PlaceRule, place};
use put_file::Put;
use qc_base::{Items, NoMemory};
use run_answers::Answer;
use schedule_report::load_lines;
use std::alloc::Global;
use step_rules::Setting;

/// The operations of each load's circuit.
const OPERATIONS: u64 = 2000;

/// The text of a load's schedule, and its lines.
pub fn loaded(alloc: Global, seed: u64) -> Result<Ending, NoMemory>
    ensures { IfOk result (λ ending. Ends (loaded seed) ending.answer ending) }
{
    let (trap, circuit) = generate(alloc, seed)?;
    let Ok(placement) = place(alloc, &trap, &circuit, PlaceRule::Declared, None) else {
        return Err(NoMemory);
    };
    let setting = Setting {
        trap: &trap,
        circuit: &circuit,
        placement: &placement,
    };
    let schedule = tight_schedule(alloc, &setting)?;
    let put = text_of(alloc, &setting, &schedule)?;
    let lines = load_lines(alloc, seed, OPERATIONS, &schedule)?;
    Ok(Ending {
        answer: Answer::Ok,
        put: Some(Put::text(put)),
        text: Items::from_vec(lines),
    })
}
