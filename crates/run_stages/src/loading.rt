//! Reading the files of a request.

ghost use Rattle.std.specs.Prelude.{◌≡◌, IfErr, IfOk};
ghost use Rattle.qc_base.specs.Shelf.{OnlyReads};
ghost use Rattle.request_words.specs.declared.file.File.{File};
ghost use Rattle.placement.specs.Placing.{FitsZones};
ghost use Rattle.run_stages.specs.Stages.{Is};
ghost use Rattle.run_stages.specs.Prepare.{limit_of, bytes_of, CircuitOf, TrapOf};
ghost use Rattle.run_stages.specs.Loading.{Loads, LoadsBoth, Counts, CountsAll, IsOfFiles, two_names};

use crate::inputs::{Inputs, circuit_in, inputs_of, trap_in};
use circuit_core::Circuit;
use qc_base::{Items, ReadFault, Shelf, read_whole};
use request_words::File;
use run_answers::Answer;
use std::alloc::Global;
use trap_model::{GivenLabels, Trap};

const CIRCUIT_LIMIT: u64 = 1 << 20;

const TRAP_LIMIT: u64 = 1 << 18;

const SCHEDULE_LIMIT: u64 = 1 << 30;

const CERTIFICATE_LIMIT: u64 = 1 << 50;

// The most bytes of a file.
fn limit_of(file: File) -> u64
    ensures { result ≡ limit_of file }
{
    match file {
        File::Circuit => CIRCUIT_LIMIT,
        File::Trap => TRAP_LIMIT,
        File::Schedule => SCHEDULE_LIMIT,
        File::Certificate => CERTIFICATE_LIMIT,
    }
}

/// A file of a request, whole.
pub fn load<S: Shelf>(
    alloc: Global,
    shelf: &mut S,
    name: &str,
    file: File,
) -> Result<Items<u8>, Answer>
    ensures loads { Loads (S.facts shelf.old) (S.facts shelf.new) name.now
        (λ content. Is (bytes_of file content)) result }
    ensures counts { Counts file name.now (S.facts shelf.old) (S.facts shelf.new) result }
    ensures refusal { IfErr result IsOfFiles }
    ensures reads { OnlyReads (S.facts shelf.old) (S.facts shelf.new) }
{
    match read_whole(alloc, shelf, name, limit_of(file)) {
        Ok(bytes) => Ok(Items::from_vec(bytes)),
        Err(ReadFault::Failed) => Err(Answer::ReadFault { file }),
        Err(ReadFault::Long) => Err(Answer::Long { file }),
        Err(ReadFault::NoMemory) => Err(Answer::NoMemory),
    }
}

/// The circuit of a request.
fn load_circuit<S: Shelf>(alloc: Global, shelf: &mut S, name: &str) -> Result<Circuit, Answer>
    ensures loads { Loads (S.facts shelf.old) (S.facts shelf.new) name.now CircuitOf result }
    ensures counts { Counts File.Circuit name.now (S.facts shelf.old) (S.facts shelf.new) result }
    ensures refusal { IfErr result IsOfFiles }
    ensures reads { OnlyReads (S.facts shelf.old) (S.facts shelf.new) }
{
    match load(alloc, shelf, name, File::Circuit) {
        Ok(bytes) => circuit_in(alloc, bytes.items()),
        Err(answer) => Err(answer),
    }
}

/// The trap of a request, and the labels of its file.
fn load_trap<S: Shelf>(
    alloc: Global,
    shelf: &mut S,
    name: &str,
) -> Result<(Trap, Option<GivenLabels>), Answer>
    ensures loads { Loads (S.facts shelf.old) (S.facts shelf.new) name.now TrapOf result }
    ensures fits { IfOk result (λ file. FitsZones file.0 file.1) }
    ensures counts { Counts File.Trap name.now (S.facts shelf.old) (S.facts shelf.new) result }
    ensures refusal { IfErr result IsOfFiles }
    ensures reads { OnlyReads (S.facts shelf.old) (S.facts shelf.new) }
{
    match load(alloc, shelf, name, File::Trap) {
        Ok(bytes) => trap_in(alloc, bytes.items()),
        Err(answer) => Err(answer),
    }
}

/// The circuit of a request, and then its trap.
pub fn load_inputs<S: Shelf>(
    alloc: Global,
    shelf: &mut S,
    circuit: &str,
    trap: &str,
) -> Result<Inputs, Answer>
    ensures loads { LoadsBoth (S.facts shelf.old) (S.facts shelf.new) circuit.now trap.now result }
    ensures fits { IfOk result (λ inputs. FitsZones inputs.trap inputs.labels) }
    ensures counts { CountsAll (two_names circuit.now trap.now) (S.facts shelf.old) (S.facts shelf.new) result }
    ensures refusal { IfErr result IsOfFiles }
    ensures reads { OnlyReads (S.facts shelf.old) (S.facts shelf.new) }
{
    match load_circuit(alloc, shelf, circuit) {
        Ok(circuit) => match load_trap(alloc, shelf, trap) {
            Ok(file) => Ok(inputs_of(circuit, file)),
            Err(answer) => Err(answer),
        },
        Err(answer) => Err(answer),
    }
}
