//! The words of the command line.

ghost use Rattle.std.specs.Prelude.{◌≤◌, IfSome};

use qc_base::number_of;
use step_vars::Encoding;

/// What is to be written.
#[derive(Clone, Copy)]
pub struct Request<'a> {
    pub circuit: &'a str,
    pub trap: &'a str,
    pub steps: u32,
    pub encoding: Encoding,
}

// The encoding of that number.
fn encoding_of(word: &str) -> Option<Encoding> {
    match word.as_bytes() {
        b"1" => Some(Encoding::Pairwise),
        b"2" => Some(Encoding::Counter),
        _ => None,
    }
}

// A number of steps that the encoding has room for.
fn steps_of(word: &str) -> Option<u32>
    ensures { IfSome result (λ steps. steps ≤ 48) }
{
    match number_of(word.as_bytes()) {
        Some(steps) => {
            if steps <= 48 {
                Some(steps as u32)
            } else {
                None
            }
        }
        None => None,
    }
}

impl<'a> Request<'a> {
    /// The request of four words: circuit, trap, steps and encoding.
    pub fn of(words: &'a [String]) -> Option<Request<'a>>
        ensures { IfSome result (λ request. request.steps ≤ 48) }
    {
        let [circuit, trap, steps, encoding] = words else {
            return None;
        };
        let Some(steps) = steps_of(steps.as_str()) else {
            return None;
        };
        let Some(encoding) = encoding_of(encoding.as_str()) else {
            return None;
        };
        Some(Request {
            circuit: circuit.as_str(),
            trap: trap.as_str(),
            steps,
            encoding,
        })
    }
}
