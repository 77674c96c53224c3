//! What is said of exact mode: its limits and its certificates.

ghost use Rattle.std.specs.Prelude.{◌≡◌};
ghost use Rattle.run_answers.specs.ExactLines.{large_word, cert_said};

use crate::large::Large;
use crate::line::Line;
use derivation_check::CertFault;

/// The word for a count that has a limit.
pub fn large_word(what: Large) -> &'static [u8]
    ensures { result.now ≡ large_word what }
{
    match what {
        Large::Ions => b"ions",
        Large::Places => b"places",
        Large::Operations => b"operations",
        Large::Steps => b"steps",
    }
}

/// A certificate that is refused.
pub fn cert_line<'a>(fault: &CertFault) -> Line<'a>
    ensures { result ≡ cert_said fault.now }
{
    match *fault {
        CertFault::Line { n } => Line::start(b"certificate line ").number(n),
        CertFault::Bad { n } => Line::start(b"certificate line ")
            .number(n)
            .text(b" is no resolution"),
        CertFault::NotRefuting => Line::start(b"certificate refutes nothing asked"),
        CertFault::Endless => Line::start(b"certificate is endless"),
        CertFault::NoMemory => Line::start(b"no memory"),
    }
}
