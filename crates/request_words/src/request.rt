//! What the words of the command line ask for.

ghost use Rattle.std.specs.Prelude.{◌≡◌, ℕ, ◌<◌, List, length, map, string_bytes};
ghost use Rattle.std.specs.Option.{option_map};
ghost use Rattle.request_words.specs.Request.{Asked, request_of as asked_by, compile_of, compile_to, three_files, verify_of, load_of, check, report, texts, put_of, is_file_word as is_file};
ghost use Rattle.request_words.specs.Seen.{asked_of, options_of};

use crate::options::{Given, is_file_word, number_in, options_from};
use placement::PlaceRule;

/// What exact mode is given: where its certificate goes, and the limits of its search.
#[derive(Clone, Copy, Debug, PartialEq, Eq)]
pub struct Exact<'a> {
    pub cert: &'a str,
    pub max: u64,
    pub budget: u64,
}

/// What is asked for.
#[derive(Clone, Copy, Debug, PartialEq, Eq)]
pub enum Request<'a> {
    /// A schedule of the circuit on the trap; in exact mode one with the fewest steps, and its certificate.
    Compile {
        circuit: &'a str,
        trap: &'a str,
        rule: PlaceRule,
        exact: Option<Exact<'a>>,
    },
    /// Whether a schedule is legal.
    Check {
        circuit: &'a str,
        trap: &'a str,
        schedule: &'a str,
    },
    /// Whether no legal schedule has fewer steps, by a certificate.
    Verify {
        circuit: &'a str,
        trap: &'a str,
        schedule: &'a str,
        cert: &'a str,
    },
    /// What a legal schedule does in numbers.
    Report {
        circuit: &'a str,
        trap: &'a str,
        schedule: &'a str,
    },
    /// A schedule of a circuit and a trap that are made from a seed.
    Load {
        seed: u64,
        schedule: &'a str,
    },
}

impl<'a> Request<'a> {
    /// The name under which it puts a file, where it puts one: the certificate of exact mode, and the schedule of a
    /// load.
    pub fn put(&self) -> Option<&'a str>
        ensures { option_map (λ name. name.now) result ≡ put_of (asked_of self.now) }
    {
        match *self {
            Request::Compile { exact, .. } => exact.map(|exact| exact.cert),
            Request::Load { schedule, .. } => Some(schedule),
            _ => None,
        }
    }
}

fn compile_to<'a>(circuit: &'a str, trap: &'a str, given: Given<'a>) -> Option<Request<'a>>
    ensures { option_map asked_of result
        ≡ compile_to circuit.now trap.now (options_of given.entry) (options_of given.entry).cert }
{
    let rule = given.rule.unwrap_or(PlaceRule::Declared);
    let exact = match given.cert {
        None => {
            if given.max.is_some() || given.budget.is_some() {
                return None;
            }
            None
        }
        Some(cert) => {
            if cert == circuit || cert == trap {
                return None;
            }
            let max = given.max.unwrap_or(48);
            let budget = given.budget.unwrap_or(100_000);
            Some(Exact { cert, max, budget })
        }
    };
    Some(Request::Compile {
        circuit,
        trap,
        rule,
        exact,
    })
}

fn compile_of(words: &[String]) -> Option<Request<'_>>
    ensures { option_map asked_of result ≡ compile_of (texts words.now) }
{
    if words.len() < 2 {
        return None;
    }
    let circuit = words[0].as_str();
    let trap = words[1].as_str();
    if !is_file_word(circuit) || !is_file_word(trap) {
        return None;
    }
    let given = options_from(Given::none(), &words[2..])?;
    compile_to(circuit, trap, given)
}

/// The words that name a circuit, a trap and a schedule.
fn three_files(words: &[String]) -> Option<(&str, &str, &str)>
    ensures { (asked : List ℕ → List ℕ → List ℕ → Asked)
        → option_map (λ f. asked f.0.now f.1.now f.2.now) result ≡ three_files asked (texts words.now) }
{
    if words.len() != 3 {
        return None;
    }
    let circuit = words[0].as_str();
    let trap = words[1].as_str();
    let schedule = words[2].as_str();
    if is_file_word(circuit) && is_file_word(trap) && is_file_word(schedule) {
        Some((circuit, trap, schedule))
    } else {
        None
    }
}

fn verify_of(words: &[String]) -> Option<Request<'_>>
    ensures { option_map asked_of result ≡ verify_of (texts words.now) }
{
    if words.len() != 4 {
        return None;
    }
    let circuit = words[0].as_str();
    let trap = words[1].as_str();
    let schedule = words[2].as_str();
    let cert = words[3].as_str();
    if is_file_word(circuit)
        && is_file_word(trap)
        && is_file_word(schedule)
        && is_file_word(cert)
        && cert != circuit
        && cert != trap
    {
        Some(Request::Verify {
            circuit,
            trap,
            schedule,
            cert,
        })
    } else {
        None
    }
}

fn load_of(words: &[String]) -> Option<Request<'_>>
    ensures { option_map asked_of result ≡ load_of (texts words.now) }
{
    if words.len() != 2 {
        return None;
    }
    let schedule = words[1].as_str();
    if !is_file_word(schedule) {
        return None;
    }
    let seed = number_in(words[0].as_str())?;
    Some(Request::Load { seed, schedule })
}

/// What the words ask for, none where they are no request. It takes no memory.
pub fn request_of(words: &[String]) -> Option<Request<'_>>
    ensures { option_map asked_of result ≡ asked_by (texts words.now) }
{
    let (command, words) = words.split_first()?;
    let command = command.as_str();
    if command == "compile" {
        compile_of(words)
    } else if command == "check" {
        three_files(words).map(|(circuit, trap, schedule)| Request::Check {
            circuit,
            trap,
            schedule,
        })
    } else if command == "verify" {
        verify_of(words)
    } else if command == "report" {
        three_files(words).map(|(circuit, trap, schedule)| Request::Report {
            circuit,
            trap,
            schedule,
        })
    } else if command == "load" {
        load_of(words)
    } else {
        None
    }
}
