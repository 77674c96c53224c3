//! Reading the head of a certificate.

ghost use Rattle.std.specs.Prelude.{◌≡◌, ℕ, ◌<◌, ◌^◌, ◌++◌, List, IfSome, IsSomeAnd};
ghost use Rattle.sat_base.specs.declared.certificate.Bound.{Bound as ABound};
ghost use Rattle.sat_base.specs.Certificate.{encoding_text, bound_text};
ghost use Rattle.derivation_check.specs.HeadFaults.{IsEncoding, IsBound, ReadsHead};

use crate::cert_fault::CertFault;
use qc_base::{small_number_until, strip_prefix};
use sat_base::{Bound, Head};

/// The greatest number of an encoding that is known.
pub const ENCODINGS: u32 = 2;

/// Heads are read from the first bytes of a certificate.
pub trait ReadHead: Sized {
    /// The head that the bytes begin with, and its length in bytes; else the first of its three lines that
    /// doesn't have the form.
    fn read(bytes: &[u8]) -> Result<(Head, u64), CertFault>
        ensures { ReadsHead bytes.now result };
}

// The encoding, and what comes after its line.
fn read_encoding(bytes: &[u8]) -> Option<(u32, &[u8])>
    ensures found { IfSome result (λ x. bytes.now ≡ encoding_text x.0 ++ x.1.now) }
    ensures known { IfSome result (λ x. IsEncoding x.0) }
    ensures only { (encoding : ℕ) (rest : List ℕ) → IsEncoding encoding
        → bytes.now ≡ encoding_text encoding ++ rest
        → IsSomeAnd result (λ x. (x.0 ≡ encoding) × (x.1.now ≡ rest)) }
{
    let number = strip_prefix(bytes, b"encoding ")?;
    let (encoding, rest) = small_number_until(number, b'\n')?;
    if 1 <= encoding && encoding <= ENCODINGS {
        Some((encoding, rest))
    } else {
        None
    }
}

// The bound, and what comes after its line.
fn read_bound(bytes: &[u8]) -> Option<(Bound, &[u8])>
    ensures found { IfSome result (λ x. bytes.now ≡ bound_text x.0 ++ x.1.now) }
    ensures known { IfSome result (λ x. IsBound x.0) }
    ensures only { (bound : ABound) (rest : List ℕ) → IsBound bound → bytes.now ≡ bound_text bound ++ rest
        → IsSomeAnd result (λ x. (x.0 ≡ bound) × (x.1.now ≡ rest)) }
{
    if let Some(left) = strip_prefix(bytes, b"refutes ") {
        if let Some(rest) = strip_prefix(left, b"nothing\n") {
            return Some((Bound::Nothing, rest));
        }
        let (bound, rest) = small_number_until(left, b'\n')?;
        return Some((Bound::Refutes(bound), rest));
    }
    let left = strip_prefix(bytes, b"open ")?;
    let (bound, rest) = small_number_until(left, b'\n')?;
    Some((Bound::Open(bound), rest))
}

impl ReadHead for Head {
    fn read(bytes: &[u8]) -> Result<(Head, u64), CertFault> {
        let Some(left) = strip_prefix(bytes, b"qccd certificate 1\n") else {
            return Err(CertFault::Line { n: 1 });
        };
        let Some((encoding, left)) = read_encoding(left) else {
            return Err(CertFault::Line { n: 2 });
        };
        let Some((bound, rest)) = read_bound(left) else {
            return Err(CertFault::Line { n: 3 });
        };
        let len = (bytes.len() - rest.len()) as u64;
        Ok((Head { encoding, bound }, len))
    }
}
