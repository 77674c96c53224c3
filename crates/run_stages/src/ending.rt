//! What a run ends with.

ghost use Rattle.std.specs.Prelude.{◌≡◌};
ghost use Rattle.run_stages.specs.Work.{written};

use put_file::Put;
use qc_base::Items;
use run_answers::Answer;

/// What a run ends with: its answer, what is put under the name that its request puts, where it puts
/// something, and what is written.
#[derive(Debug, Drop)]
pub struct Ending {
    pub answer: Answer,
    pub put: Option<Put>,
    pub text: Items<u8>,
}

/// A text that is written, where nothing is put.
pub fn written(text: Items<u8>) -> Ending
    ensures { result ≡ written text }
{
    Ending {
        answer: Answer::Ok,
        put: None,
        text,
    }
}
