//! One run of the program, over any shelf and any sinks.

ghost use Rattle.std.specs.Prelude.{◌≡◌, ◌≢◌, ◌⊎◌, IsTrue, IfOk, IfErr, IsErrOf, OnOk, None, Some, Result, Err};
ghost use Rattle.std.specs.Option.{option_copied, option_map};
ghost use Rattle.qc_base.specs.Causes.{Rose};
ghost use Rattle.qc_base.specs.Shelf.{SameCounts, OnlyReads};
ghost use Rattle.qc_base.specs.Sink.{Took, TookPart};
ghost use Rattle.request_words.specs.declared.file.File.{File as AFile};
ghost use Rattle.request_words.specs.Request.{texts, named, put_of, compile, verify, request_of as asked_by};
ghost use Rattle.request_words.specs.Seen.{asked_of, search_of};
ghost use Rattle.run_answers.specs.declared.answer.Answer.{Answer};
ghost use Rattle.run_answers.specs.Answer.{fault_line};
ghost use Rattle.put_file.specs.declared.put_fault.PutFault.{PutFault as AFault};
ghost use Rattle.run_stages.specs.Kinds.{IsRefusal, is_ok};
ghost use Rattle.run_stages.specs.Work.{Work, Ends, AnswersTo, loaded};
ghost use Rattle.run_stages.specs.Found.{name_in, put_name, held, FailsToRead, FailsToPut};
ghost use Rattle.run_stages.specs.Prepare.{JudgedFor, Prepares};
ghost use Rattle.program_run.specs.Run.{Runs, SinkFacts, Holds, IsReported, KeepsCounts, KeepsFiles, NoneFailed};
ghost use Rattle.program_run.specs.Run.{sink_facts, devices};
ghost use Rattle.program_run.specs.Preparing.{Prepared, PreparedFor, CountsFor, PutsNothing, RefusesRequest};
ghost use Rattle.program_run.specs.Preparing.{HasName, IsEnd, IsWritten, IsFinished, answer_in, names_of};
ghost use Rattle.run_stages.specs.Judging.{Judging, as_work};
ghost use Rattle.run_stages.specs.Loading.{Counts, CountsAll, IsOfRequest};

use placement::PlaceRule;
use put_file::{Put, PutFault};
use qc_base::{NoMemory, Shelf, Sink, write_all};
use request_words::{Exact, File, Request, request_of};
use run_answers::{Answer, Names};
use run_stages::{
    Ending, Inputs, Saying, judged, load, load_inputs, loaded, planned, sought, verified_file,
};
use std::alloc::Global;

/// An answer that comes before anything is written, and what was read by then.
#[derive(Debug, Drop)]
struct Refusal {
    answer: Answer,
    inputs: Option<Inputs>,
}

// A refusal before circuit and trap are known.
fn early(answer: Answer) -> Refusal
    ensures { result ≡ record { answer = answer; inputs = None } }
{
    Refusal {
        answer,
        inputs: None,
    }
}

// A refusal once circuit and trap are known.
fn late(answer: Answer, inputs: Inputs) -> Refusal
    ensures { result ≡ record { answer = answer; inputs = Some inputs } }
{
    Refusal {
        answer,
        inputs: Some(inputs),
    }
}

// The text of a schedule for the circuit on the trap.
fn compiled<S: Shelf>(
    alloc: Global,
    shelf: &mut S,
    circuit: &str,
    trap: &str,
    rule: PlaceRule,
) -> Result<Ending, Refusal>
    ensures prepared { let asked = compile circuit.now trap.now rule None in
        PreparedFor asked (S.facts shelf.old) (S.facts shelf.new) result }
    ensures counts { let asked = compile circuit.now trap.now rule None in
        CountsFor asked (S.facts shelf.old) (S.facts shelf.new) result }
    ensures refusal { IfErr result RefusesRequest }
    ensures named { IfOk result PutsNothing }
    ensures reads { OnlyReads (S.facts shelf.old) (S.facts shelf.new) }
{
    match load_inputs(alloc, shelf, circuit, trap) {
        Ok(inputs) => match planned(alloc, &inputs, rule) {
            Ok(ending) => Ok(ending),
            Err(answer) => Err(late(answer, inputs)),
        },
        Err(answer) => Err(early(answer)),
    }
}

// A schedule with the fewest steps for the circuit on the trap, and its certificate.
fn fewest<S: Shelf>(
    alloc: Global,
    shelf: &mut S,
    circuit: &str,
    trap: &str,
    rule: PlaceRule,
    exact: &Exact,
) -> Result<Ending, Refusal>
    ensures prepared { let asked = compile circuit.now trap.now rule (Some (search_of exact.now)) in
        PreparedFor asked (S.facts shelf.old) (S.facts shelf.new) result }
    ensures counts { let asked = compile circuit.now trap.now rule (Some (search_of exact.now)) in
        CountsFor asked (S.facts shelf.old) (S.facts shelf.new) result }
    ensures refusal { IfErr result RefusesRequest }
    ensures reads { OnlyReads (S.facts shelf.old) (S.facts shelf.new) }
{
    match load_inputs(alloc, shelf, circuit, trap) {
        Ok(inputs) => match sought(alloc, &inputs, rule, exact) {
            Ok(ending) => Ok(ending),
            Err(answer) => Err(late(answer, inputs)),
        },
        Err(answer) => Err(early(answer)),
    }
}

// What is said of the schedule of that name.
fn judged_file<S: Shelf>(
    alloc: Global,
    shelf: &mut S,
    inputs: &Inputs,
    schedule: &str,
    saying: Saying,
) -> Result<Ending, Answer>
    ensures judges { Judging (as_work saying) (S.facts shelf.old) (S.facts shelf.new) schedule.now inputs.now result }
    ensures counts { Counts AFile.Schedule schedule.now (S.facts shelf.old) (S.facts shelf.new) result }
    ensures refusal { IfErr result IsOfRequest }
    ensures named { IfOk result PutsNothing }
    ensures reads { OnlyReads (S.facts shelf.old) (S.facts shelf.new) }
{
    match load(alloc, shelf, schedule, File::Schedule) {
        Ok(bytes) => judged(alloc, inputs, bytes.items(), saying),
        Err(answer) => Err(answer),
    }
}

// What is said of a schedule for the circuit on the trap.
fn checked<S: Shelf>(
    alloc: Global,
    shelf: &mut S,
    circuit: &str,
    trap: &str,
    schedule: &str,
    saying: Saying,
) -> Result<Ending, Refusal>
    ensures prepared { let names = named circuit.now trap.now (Some schedule.now) None in
        Prepared names (JudgedFor (as_work saying)) (S.facts shelf.old) (S.facts shelf.new) result }
    ensures counts { let names = named circuit.now trap.now (Some schedule.now) None in
        CountsAll names (S.facts shelf.old) (S.facts shelf.new) (answer_in result) }
    ensures refusal { IfErr result RefusesRequest }
    ensures named { IfOk result PutsNothing }
    ensures reads { OnlyReads (S.facts shelf.old) (S.facts shelf.new) }
{
    match load_inputs(alloc, shelf, circuit, trap) {
        Ok(inputs) => match judged_file(alloc, shelf, &inputs, schedule, saying) {
            Ok(ending) => Ok(ending),
            Err(answer) => Err(late(answer, inputs)),
        },
        Err(answer) => Err(early(answer)),
    }
}

// What is said of a schedule for the circuit on the trap, where its certificate shows that none has fewer steps.
fn verified<S: Shelf>(
    alloc: Global,
    shelf: &mut S,
    circuit: &str,
    trap: &str,
    schedule: &str,
    cert: &str,
) -> Result<Ending, Refusal>
    ensures prepared { let asked = verify circuit.now trap.now schedule.now cert.now in
        PreparedFor asked (S.facts shelf.old) (S.facts shelf.new) result }
    ensures counts { let asked = verify circuit.now trap.now schedule.now cert.now in
        CountsFor asked (S.facts shelf.old) (S.facts shelf.new) result }
    ensures refusal { IfErr result RefusesRequest }
    ensures named { IfOk result PutsNothing }
    ensures reads { OnlyReads (S.facts shelf.old) (S.facts shelf.new) }
{
    match load_inputs(alloc, shelf, circuit, trap) {
        Ok(inputs) => match verified_file(alloc, shelf, &inputs, schedule, cert) {
            Ok(ending) => Ok(ending),
            Err(answer) => Err(late(answer, inputs)),
        },
        Err(answer) => Err(early(answer)),
    }
}

// What is put and written for a load.
fn load_of(alloc: Global, seed: u64) -> Result<Ending, Refusal>
    ensures loaded { IfOk result (λ ending. Ends (loaded seed) ending.answer ending) }
    ensures memory { IfErr result (λ refusal. refusal ≡ record { answer = Answer.NoMemory; inputs = None }) }
{
    match loaded(alloc, seed) {
        Ok(ending) => Ok(ending),
        Err(NoMemory) => Err(early(Answer::NoMemory)),
    }
}

// What is to be put and written for a request, or why nothing is.
fn prepare_request<S: Shelf>(
    alloc: Global,
    shelf: &mut S,
    request: Request,
) -> Result<Ending, Refusal>
    ensures prepared { PreparedFor (asked_of request.entry) (S.facts shelf.old) (S.facts shelf.new) result }
    ensures counts { CountsFor (asked_of request.entry) (S.facts shelf.old) (S.facts shelf.new) result }
    ensures refusal { IfErr result RefusesRequest }
    ensures named { IfOk result (λ ending. HasName (put_of (asked_of request.entry)) ending.put) }
    ensures reads { OnlyReads (S.facts shelf.old) (S.facts shelf.new) }
{
    match request {
        Request::Compile {
            circuit,
            trap,
            rule,
            exact,
        } => match exact {
            None => compiled(alloc, shelf, circuit, trap, rule),
            Some(exact) => fewest(alloc, shelf, circuit, trap, rule, &exact),
        },
        Request::Check {
            circuit,
            trap,
            schedule,
        } => checked(alloc, shelf, circuit, trap, schedule, Saying::Line),
        Request::Verify {
            circuit,
            trap,
            schedule,
            cert,
        } => verified(alloc, shelf, circuit, trap, schedule, cert),
        Request::Report {
            circuit,
            trap,
            schedule,
        } => checked(alloc, shelf, circuit, trap, schedule, Saying::Report),
        Request::Load { seed, .. } => load_of(alloc, seed),
    }
}

// What is to be put and written for the words, or why nothing is.
fn prepare<S: Shelf>(alloc: Global, words: &[String], shelf: &mut S) -> Result<Ending, Refusal>
    ensures prepared { let words = texts words.now in
        Prepared (name_in words) (λ found. Prepares found words) (S.facts shelf.old) (S.facts shelf.new) result }
    ensures counts { CountsAll (name_in (texts words.now)) (S.facts shelf.old) (S.facts shelf.new) (answer_in result) }
    ensures words { asked_by (texts words.now) ≡ None → answer_in result ≡ Err Answer.Usage }
    ensures refusal { IfErr result (λ refusal. IsRefusal refusal.answer) }
    ensures usage { IfErr result (λ refusal. refusal.answer ≡ Answer.Usage → asked_by (texts words.now) ≡ None) }
    ensures named { IfOk result (λ ending. HasName (put_name (texts words.now)) ending.put) }
    ensures reads { OnlyReads (S.facts shelf.old) (S.facts shelf.new) }
{
    match request_of(words) {
        Some(request) => prepare_request(alloc, shelf, request),
        None => Err(early(Answer::Usage)),
    }
}

/// The name under which the request of the words puts a file, where it puts one.
fn put_name(words: &[String]) -> Option<&str>
    ensures { option_map (λ name. name.now) result ≡ put_name (texts words.now) }
{
    request_of(words)?.put()
}

/// Writes a text: all of it, or a proper prefix where the output fails.
fn write_text<O: Sink>(out: &mut O, text: &[u8]) -> Answer
    ensures ok { result ≡ Answer.Ok → Took (O.taken out.old) (O.taken out.new) text.now }
    ensures part { result ≡ Answer.WriteFault → TookPart (O.taken out.old) (O.taken out.new) text.now }
    ensures either { (result ≡ Answer.Ok) ⊎ (result ≡ Answer.WriteFault) }
    ensures fault { result ≡ Answer.WriteFault → Rose (O.faults out.old) (O.faults out.new) }
    ensures keeps { result ≢ Answer.WriteFault → O.faults out.new ≡ O.faults out.old }
{
    match write_all(out, text) {
        Ok(()) => Answer::Ok,
        Err(_) => Answer::WriteFault,
    }
}

// Puts what is to be put under the name, where there is something. Memory runs out only before anything is put.
fn put_under<S: Shelf>(
    alloc: Global,
    shelf: &mut S,
    name: Option<&str>,
    put: &Option<Put>,
) -> Result<(), PutFault>
    requires { HasName (option_map (λ name. name.now) name) put.now }
    ensures holds { let under = option_map (λ name. name.now) name.entry in
        OnOk result (Holds (S.facts shelf.old) (S.facts shelf.new) under put.now) }
    ensures failed { let under = option_map (λ name. name.now) name.entry in
        IsErrOf result AFault.Failed → FailsToPut under (S.facts shelf.old).put_faults (S.facts shelf.new).put_faults }
    ensures memory { IsErrOf result AFault.NoMemory → S.facts shelf.new ≡ S.facts shelf.old }
    ensures counts { OnOk result (SameCounts (S.facts shelf.old) (S.facts shelf.new)) }
    ensures files { KeepsFiles (option_map (λ name. name.now) name.entry) (S.facts shelf.old) (S.facts shelf.new) }
{
    match put {
        None => Ok(()),
        Some(put) => match name {
            None => Ok(()),
            Some(name) => put.store(alloc, shelf, name),
        },
    }
}

// Whether something is written.
fn is_ok(answer: &Answer) -> bool
    ensures { result ≡ is_ok answer.now }
{
    matches!(answer, Answer::Ok)
}

// Writes what a run ends with once all is put.
fn written<O: Sink>(out: &mut O, ending: Ending) -> Answer
    requires { IsEnd ending.answer }
    ensures { IsWritten ending (sink_facts (O.taken out.old) (O.faults out.old))
        (sink_facts (O.taken out.new) (O.faults out.new)) result }
{
    if is_ok(&ending.answer) {
        write_text(out, ending.text.items())
    } else {
        ending.answer
    }
}

// Puts and writes what a run ends with.
fn finish<S: Shelf, O: Sink>(
    alloc: Global,
    shelf: &mut S,
    name: Option<&str>,
    out: &mut O,
    ending: Ending,
) -> Answer
    requires named { HasName (option_map (λ name. name.now) name) ending.put }
    requires answer { IsEnd ending.answer }
    ensures { (err err_now : SinkFacts) → IsFinished (option_map (λ name. name.now) name.entry) ending
        (devices (S.facts shelf.old) (sink_facts (O.taken out.old) (O.faults out.old)) err)
        (devices (S.facts shelf.new) (sink_facts (O.taken out.new) (O.faults out.new)) err_now) result }
{
    match put_under(alloc, shelf, name, &ending.put) {
        Ok(()) => written(out, ending),
        Err(PutFault::Failed) => Answer::WriteFault,
        Err(PutFault::NoMemory) => Answer::NoMemory,
    }
}

/// Reports an answer that is a refusal.
fn report_fault<E: Sink>(answer: &Answer, inputs: Option<&Inputs>, err: &mut E)
    ensures { IsReported (sink_facts (E.taken err.old) (E.faults err.old))
        (sink_facts (E.taken err.new) (E.faults err.new))
        (fault_line (names_of (option_copied inputs.entry)) answer.now) }
{
    let names = Names {
        circuit: inputs.map(|inputs| &inputs.circuit),
        trap: inputs.map(|inputs| &inputs.trap),
    };
    let _ = answer.line(names).write_to(err);
}

/// One run: compiles the circuit for the trap that the words name, judges, reports or verifies a schedule of them, or
/// compiles a load, and writes the text of the schedule, or what is said of it, to `out`, or a line that says what is
/// wrong to `err`. A load puts the text of its schedule, and a compilation in exact mode its certificate.
pub fn run<S: Shelf, O: Sink, E: Sink>(
    alloc: Global,
    words: &[String],
    shelf: &mut S,
    out: &mut O,
    err: &mut E,
) -> Answer
    // What was found of the files, why the answer comes, what was put and written, and the line that was reported.
    // What a compilation writes is the text of a schedule that, played from the placement, obeys every rule of the
    // trap in each step and performs the operations of the circuit, each exactly once and in their order, and in exact
    // mode none that does has fewer steps, which the certificate that was put shows; what a check, a report or a
    // verification writes is said of a schedule that does, whose text the file is.
    ensures ran { Runs (texts words.now)
        (devices (S.facts shelf.old)
        (sink_facts (O.taken out.old) (O.faults out.old)) (sink_facts (E.taken err.old) (E.faults err.old)))
        (devices (S.facts shelf.new)
        (sink_facts (O.taken out.new) (O.faults out.new)) (sink_facts (E.taken err.new) (E.faults err.new))) result }

    // Words that are no request are refused so, whatever the files hold and however little memory there is.
    ensures words { asked_by (texts words.now) ≡ None → result ≡ Answer.Usage }
    ensures usage { result ≡ Answer.Usage → asked_by (texts words.now) ≡ None }

    // A fault of a device is answered only where that very device failed, and none is passed over: a count rises only
    // where the answer says so.
    ensures read_fault { (file : AFile) → result ≡ Answer.ReadFault file
        → FailsToRead (name_in (texts words.now)) file (S.facts shelf.old).read_faults (S.facts shelf.new).read_faults }
    ensures keeps { KeepsCounts (texts words.now) result (S.facts shelf.old) (S.facts shelf.new) }
    ensures keeps_out { result ≢ Answer.WriteFault → O.faults out.new ≡ O.faults out.old }

    // Where the contents of the shelf are known and no device fails, the answer is what the words and the files come
    // to: in exact mode, where a schedule of at most max steps plays, one with the fewest steps or that the budget is
    // spent, and else that there is none or that the budget is spent. Only out of memory is free.
    ensures settled { (outcome : Result Work Answer) → IsTrue (S.facts shelf.old).known
        → Prepares (held (S.facts shelf.old).contents (texts words.now)) (texts words.now) outcome
        → NoneFailed (texts words.now)
        (devices (S.facts shelf.old)
        (sink_facts (O.taken out.old) (O.faults out.old)) (sink_facts (E.taken err.old) (E.faults err.old)))
        (devices (S.facts shelf.new)
        (sink_facts (O.taken out.new) (O.faults out.new)) (sink_facts (E.taken err.new) (E.faults err.new)))
        → AnswersTo outcome result ⊎ (result ≡ Answer.NoMemory) }

    // No file is changed but under the name that the request puts.
    ensures files { KeepsFiles (put_name (texts words.now)) (S.facts shelf.old) (S.facts shelf.new) }
{
    match prepare(alloc, words, shelf) {
        Ok(ending) => {
            let answer = finish(alloc, shelf, put_name(words), out, ending);
            report_fault(&answer, None, err);
            answer
        }
        Err(refusal) => {
            report_fault(&refusal.answer, refusal.inputs.as_ref(), err);
            refusal.answer
        }
    }
}
