//! Texts and certificates, put on a shelf in memory.

use derivation_log::{LineId, Log};
use put_file::{Certificate, Put, PutFault};
use qc_base::{Items, MemShelf};
use sat_base::{Bound, Head, Lit};
use std::alloc::{AllocError, Global};
use std::test::Fail;

/// The bytes of a text, none of which is like the one before it.
fn bytes(alloc: Global, count: u64) -> Result<Vec<u8>, AllocError> {
    let mut bytes = Vec::new(alloc);
    for i in 0..count {
        bytes.push((i % 251) as u8)?;
    }
    Ok(bytes)
}

const FIRST: LineId = LineId {
    derived: false,
    number: 1,
};

const SECOND: LineId = LineId {
    derived: false,
    number: 2,
};

#[test]
fn a_text_longer_than_a_piece_is_put_whole(rt: HostRuntime) -> Result<(), Fail> {
    let alloc = rt.alloc();
    let put = Put::text(Items::from_vec(bytes(alloc, 140_000)?));
    let mut shelf = MemShelf::new(alloc, Vec::new(alloc));
    shelf.add("a", b"what was there")?;
    shelf.hold("a", 140_000)?;
    assert!(rt; put.store(alloc, &mut shelf, "a") == Ok(()));
    assert!(rt; shelf.content("a") == Some(bytes(alloc, 140_000)?.as_slice()));
    Ok(())
}

#[test]
fn an_empty_text_is_put(rt: HostRuntime) -> Result<(), Fail> {
    let alloc = rt.alloc();
    let put = Put::text(Items::from_vec(Vec::new(alloc)));
    let mut shelf = MemShelf::new(alloc, Vec::new(alloc));
    shelf.add("a", b"what was there")?;
    assert!(rt; put.store(alloc, &mut shelf, "a") == Ok(()));
    assert!(rt; shelf.content("a") == Some(b"".as_slice()));
    Ok(())
}

#[test]
fn a_put_that_fails_is_answered(rt: HostRuntime) -> Result<(), Fail> {
    let alloc = rt.alloc();
    let put = Put::text(Items::from_vec(bytes(alloc, 70_000)?));
    let mut shelf = MemShelf::new(alloc, vec![in alloc; 1]?);
    shelf.hold("a", 70_000)?;
    assert!(rt; put.store(alloc, &mut shelf, "b") == Err(PutFault::Failed));
    assert!(rt; put.store(alloc, &mut shelf, "a") == Err(PutFault::Failed));
    assert!(rt; put.store(alloc, &mut shelf, "a") == Ok(()));
    Ok(())
}

#[test]
fn a_certificate_of_one_line_is_put(rt: HostRuntime) -> Result<(), Fail> {
    let alloc = rt.alloc();
    let mut log = Log::new(alloc);
    let first = log.axiom(&[Lit::new(2, false), Lit::new(1, true)])?;
    let second = log.axiom(&[Lit::new(1, false)])?;
    assert_eq!(rt; (first, second), (FIRST, SECOND));
    log.derive(&[FIRST, SECOND])?;
    let head = Head {
        encoding: 2,
        bound: Bound::Refutes(0),
    };
    let put = Put::lines(Certificate::new(alloc, log, head, 2, 1)?);
    let mut shelf = MemShelf::new(alloc, Vec::new(alloc));
    shelf.hold("x", 1000)?;
    assert!(rt; put.store(alloc, &mut shelf, "x") == Ok(()));
    let text = b"qccd certificate 1\nencoding 2\nrefutes 0\n3 -2 0 1 2 0\n";
    assert!(rt; shelf.content("x") == Some(text.as_slice()));
    Ok(())
}
