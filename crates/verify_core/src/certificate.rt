//! The check of a certificate that is read in pieces.

ghost use Rattle.std.specs.Prelude.{◌≡◌, ℕ, ◌<◌, ◌≤◌, ◌+◌, List, length, take, IfOk, OnOk, IsErrOf};
ghost use Rattle.qc_base.specs.Causes.{Rose};
ghost use Rattle.sat_base.specs.Certificate.{head_text};
ghost use Rattle.derivation_check.specs.declared.cert_fault.CertFault.{CertFault as ACertFault};
ghost use Rattle.derivation_check.specs.Faults.{Task};
ghost use Rattle.derivation_check.specs.HeadFaults.{IsEncoding};
ghost use Rattle.step_vars.specs.Certifies.{head_of, asked, encoding_number};
ghost use Rattle.verify_core.specs.Reading.{BeginsContent, IsEnough, IsFeeding, WasFedAll, HasFaultLater, WasRead, IsOfShelf, IsOfReading, JudgedFor};

use crate::minimum::Minimum;
use crate::verification::LIMIT;
use crate::verify_fault::VerifyFault;
use derivation_check::{CertFault, Checker, Head, ReadHead};
use qc_base::Shelf;
use std::alloc::Global;
use step_vars::Encoding;

/// How many bytes are asked for at once.
const PIECE: usize = 1 << 16;

/// Each head has fewer bytes.
const FRONT: usize = 256;

// The encoding of that number in a head.
fn encoding_of(number: u32) -> Encoding
    requires { IsEncoding number }
    ensures { encoding_number result ≡ number }
{
    if number == 1 {
        Encoding::Pairwise
    } else {
        Encoding::Counter
    }
}

// The first bytes of a content: at least those that can be of a head, or all.
fn read_front<S: Shelf>(
    alloc: Global,
    shelf: &mut S,
    name: &str,
    buf: &mut [u8],
) -> Result<Vec<u8>, VerifyFault>
    requires some { 0 < length buf.old }
    requires few { length buf.old ≤ PIECE }
    ensures begins { IfOk result (λ front. BeginsContent (S.facts shelf.old) name.now front.items) }
    ensures enough { IfOk result (λ front. IsEnough (S.facts shelf.old) name.now FRONT front.items) }
    ensures few { IfOk result (λ front. length front.items ≤ FRONT + PIECE) }
    ensures fault { IsOfShelf result }
    ensures failed { IsErrOf result VerifyFault.Failed
        → Rose ((S.facts shelf.old).read_faults name.now) ((S.facts shelf.new).read_faults name.now) }
    ensures read { WasRead result (S.facts shelf.old) (S.facts shelf.new) }
{
    let mut front = Vec::new(alloc);
    loop {
        let Ok(count) = shelf.read(name, front.len() as u64, buf) else {
            return Err(VerifyFault::Failed);
        };
        if count == 0 {
            return Ok(front);
        }
        front.extend_from_slice(&buf[..count])?;
        if front.len() >= FRONT {
            return Ok(front);
        }
    }
}

// Feeds the checker the bytes of a content from a place on.
fn feed_rest<S: Shelf>(
    checker: &mut Checker,
    shelf: &mut S,
    name: &str,
    start: u64,
    buf: &mut [u8],
) -> Result<(), VerifyFault>
    requires some { 0 < length buf.old }
    requires few { length buf.old ≤ PIECE }
    ensures ok { OnOk result ((task : Task) (head bytes : List ℕ)
        → IsFeeding (S.facts shelf.old) name.now task head bytes checker.old start
        → WasFedAll (S.facts shelf.old) name.now task head bytes checker.new) }
    ensures cert { (fault : ACertFault) → IsErrOf result (VerifyFault.Cert fault)
        → (task : Task) (head bytes : List ℕ)
        → IsFeeding (S.facts shelf.old) name.now task head bytes checker.old start
        → HasFaultLater (S.facts shelf.old) name.now task head bytes fault }
    ensures fault { IsOfReading result }
    ensures failed { IsErrOf result VerifyFault.Failed
        → Rose ((S.facts shelf.old).read_faults name.now) ((S.facts shelf.new).read_faults name.now) }
    ensures read { WasRead result (S.facts shelf.old) (S.facts shelf.new) }
{
    let mut from = start;
    while from <= LIMIT {
        let Ok(count) = shelf.read(name, from, buf) else {
            return Err(VerifyFault::Failed);
        };
        if count == 0 {
            return Ok(());
        }
        checker.feed(&buf[..count])?;
        from += count as u64;
    }
    Err(VerifyFault::NoMemory)
}

// Checks the lines after a head of that length.
fn check_lines<S: Shelf>(
    minimum: &Minimum,
    encoding: Encoding,
    head: usize,
    front: &[u8],
    shelf: &mut S,
    name: &str,
    buf: &mut [u8],
) -> Result<(), VerifyFault>
    requires some { 0 < length buf.old }
    requires few { length buf.old ≤ PIECE }
    requires front { length front.now ≤ FRONT + PIECE }
    requires steps { 1 ≤ minimum.now.steps }
    requires small { minimum.now.steps ≤ 48 }
    requires head { take head front.now ≡ head_text (head_of encoding (asked minimum.now.steps)) }
    requires within { head ≤ length front.now }
    requires content { BeginsContent (S.facts shelf.old) name.now front.now }
    ensures judged { JudgedFor (S.facts shelf.old) name.now minimum.now result }
    ensures failed { IsErrOf result VerifyFault.Failed
        → Rose ((S.facts shelf.old).read_faults name.now) ((S.facts shelf.new).read_faults name.now) }
    ensures read { WasRead result (S.facts shelf.old) (S.facts shelf.new) }
{
    let (mut checker, goal) = minimum.checker(encoding, head as u64)?;
    checker.feed(&front[head..])?;
    feed_rest(&mut checker, shelf, name, front.len() as u64, buf)?;
    checker.finish(goal)?;
    Ok(())
}

// Checks a certificate of which the first bytes were read.
fn check_from<S: Shelf>(
    minimum: &Minimum,
    front: &[u8],
    shelf: &mut S,
    name: &str,
    buf: &mut [u8],
) -> Result<(), VerifyFault>
    requires some { 0 < length buf.old }
    requires few { length buf.old ≤ PIECE }
    requires front { length front.now ≤ FRONT + PIECE }
    requires content { BeginsContent (S.facts shelf.old) name.now front.now }
    requires enough { IsEnough (S.facts shelf.old) name.now FRONT front.now }
    ensures judged { JudgedFor (S.facts shelf.old) name.now minimum.now result }
    ensures failed { IsErrOf result VerifyFault.Failed
        → Rose ((S.facts shelf.old).read_faults name.now) ((S.facts shelf.new).read_faults name.now) }
    ensures read { WasRead result (S.facts shelf.old) (S.facts shelf.new) }
{
    let (head, len) = Head::read(front)?;
    let len = len as usize;
    if head.bound != minimum.asked() {
        return Err(VerifyFault::Cert(CertFault::NotRefuting));
    }
    if minimum.steps() > 0 {
        let encoding = encoding_of(head.encoding);
        return check_lines(minimum, encoding, len, front, shelf, name, buf);
    }
    if len < front.len() {
        return Err(VerifyFault::Cert(CertFault::Line { n: 4 }));
    }
    Ok(())
}

/// Reads a certificate and checks that it shows the minimum.
pub(crate) fn check_certificate<S: Shelf>(
    minimum: &Minimum,
    shelf: &mut S,
    name: &str,
) -> Result<(), VerifyFault>
    ensures judged { JudgedFor (S.facts shelf.old) name.now minimum.now result }
    ensures failed { IsErrOf result VerifyFault.Failed
        → Rose ((S.facts shelf.old).read_faults name.now) ((S.facts shelf.new).read_faults name.now) }
    ensures read { WasRead result (S.facts shelf.old) (S.facts shelf.new) }
{
    let mut buf = vec![in minimum.alloc; 0u8; PIECE]?;
    let front = read_front(minimum.alloc, shelf, name, &mut buf)?;
    check_from(minimum, &front, shelf, name, &mut buf)
}
