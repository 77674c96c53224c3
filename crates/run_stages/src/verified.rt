//! What is said of a schedule whose certificate shows that none has fewer steps.

ghost use Rattle.std.specs.Prelude.{◌≡◌, None, IfOk, IfErr};
ghost use Rattle.qc_base.specs.Shelf.{OnlyReads};
ghost use Rattle.request_words.specs.declared.file.File.{File as AFile};
ghost use Rattle.run_stages.specs.Prepare.{verified_count, verify_refusal};
ghost use Rattle.run_stages.specs.Judging.{Verifying, VerifyingText};
ghost use Rattle.run_stages.specs.Loading.{Counts, CountsAll, IsOfFiles, judged_names};

use crate::check::check_refusal;
use crate::ending::{Ending, written};
use crate::inputs::Inputs;
use crate::loading::load;
use qc_base::{Items, NoMemory, Shelf};
use request_words::File;
use run_answers::{Answer, Large};
use schedule_report::least_line;
use std::alloc::Global;
use verify_core::{Count, VerifyFault, verify};

// What has a limit in a verification.
fn verified_count(count: Count) -> Large
    ensures { result ≡ verified_count count }
{
    match count {
        Count::Ions => Large::Ions,
        Count::Places => Large::Places,
        Count::Ops => Large::Operations,
        Count::Steps => Large::Steps,
    }
}

// The answer to a schedule and a certificate that are not accepted.
fn verify_refusal(fault: VerifyFault) -> Answer
    ensures answer { result ≡ verify_refusal fault }
    ensures kind { IsOfFiles result }
{
    match fault {
        VerifyFault::Check(fault) => check_refusal(fault),
        VerifyFault::TooLarge { what, count } => Answer::TooLarge {
            what: verified_count(what),
            count,
        },
        VerifyFault::Failed => Answer::ReadFault {
            file: File::Certificate,
        },
        VerifyFault::Cert(fault) => Answer::Cert(fault),
        VerifyFault::NoMemory => Answer::NoMemory,
    }
}

// What is said of the schedule whose text the bytes are, where the certificate of that name is one for it.
fn verified_text<S: Shelf>(
    alloc: Global,
    shelf: &mut S,
    inputs: &Inputs,
    bytes: &[u8],
    cert: &str,
) -> Result<Ending, Answer>
    ensures verifies { VerifyingText (S.facts shelf.old) (S.facts shelf.new) cert.now inputs.now
        bytes.now result }
    ensures counts { Counts AFile.Certificate cert.now (S.facts shelf.old) (S.facts shelf.new) result }
    ensures refusal { IfErr result IsOfFiles }
    ensures named { IfOk result (λ ending. ending.put ≡ None) }
    ensures reads { OnlyReads (S.facts shelf.old) (S.facts shelf.new) }
{
    match verify(alloc, &inputs.trap, &inputs.circuit, bytes, shelf, cert) {
        Ok(steps) => match least_line(alloc, steps as u64) {
            Ok(text) => Ok(written(Items::from_vec(text))),
            Err(NoMemory) => Err(Answer::NoMemory),
        },
        Err(fault) => Err(verify_refusal(fault)),
    }
}

/// What is said of the schedule of that name, where the certificate of the other name is one for it.
pub fn verified_file<S: Shelf>(
    alloc: Global,
    shelf: &mut S,
    inputs: &Inputs,
    schedule: &str,
    cert: &str,
) -> Result<Ending, Answer>
    ensures verifies { Verifying (S.facts shelf.old) (S.facts shelf.new) schedule.now cert.now inputs.now
        result }
    ensures counts { CountsAll (judged_names schedule.now cert.now) (S.facts shelf.old)
        (S.facts shelf.new) result }
    ensures refusal { IfErr result IsOfFiles }
    ensures named { IfOk result (λ ending. ending.put ≡ None) }
    ensures reads { OnlyReads (S.facts shelf.old) (S.facts shelf.new) }
{
    match load(alloc, shelf, schedule, File::Schedule) {
        Ok(bytes) => verified_text(alloc, shelf, inputs, bytes.items(), cert),
        Err(answer) => Err(answer),
    }
}
