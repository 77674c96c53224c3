//! The shelf over files, the sink over a writer, and the exit code of an answer.

use qc_base::{Failed, Shelf, read_whole, write_all};
use real_devices::{RealShelf, RealSink};
use run_answers::Answer;
use std::fs;
use std::io::{self, ErrorKind, Write};
use std::process::ExitCode;
use std::test::Fail;

/// A writer that takes at most three bytes a call.
#[derive(Drop)]
struct Slow<'a> {
    bytes: &'a mut Vec<u8>,
}

impl Write for Slow<'_> {
    fn write(&mut self, piece: &[u8]) -> io::Result<usize> {
        let count = piece.len().min(3);
        match self.bytes.extend_from_slice(&piece[..count]) {
            Ok(()) => Ok(count),
            Err(_) => Err(io::Error::from(ErrorKind::OutOfMemory)),
        }
    }

    fn flush(&mut self) -> io::Result<()> {
        Ok(())
    }
}

#[test]
fn a_writer_that_takes_three_bytes_a_call_takes_all(rt: HostRuntime) -> Result<(), Fail> {
    let mut bytes = Vec::new(rt.alloc());
    let mut sink = RealSink::new(Slow { bytes: &mut bytes });
    assert!(rt; write_all(&mut sink, b"qccd: no memory\n") == Ok(()));
    drop(sink);
    assert!(rt; bytes.as_slice() == b"qccd: no memory\n".as_slice());
    Ok(())
}

#[test]
fn a_file_is_put_and_read(rt: HostRuntime) -> Result<(), Fail> {
    let path = "a-file-that-is-put";
    let mut shelf = RealShelf::new(rt.alloc(), &rt)?;
    assert!(rt; shelf.put(path, 0, b"a long beginning") == Ok(()));
    assert!(rt; shelf.put(path, 0, b"abc") == Ok(()));
    assert!(rt; shelf.put(path, 3, b"def") == Ok(()));
    let read = read_whole(rt.alloc(), &mut shelf, path, 6)?;
    assert!(rt; read.as_slice() == b"abcdef".as_slice());
    let mut buf = [0u8; 2];
    assert!(rt; shelf.read(path, 3, &mut buf) == Ok(2));
    assert!(rt; buf == [b'd', b'e']);
    fs::remove_file(&rt, path)?;
    Ok(())
}

#[test]
fn a_file_that_cannot_be_opened_is_a_fault(rt: HostRuntime) -> Result<(), Fail> {
    let mut shelf = RealShelf::new(rt.alloc(), &rt)?;
    let mut buf = [0u8; 2];
    assert!(rt; shelf.read("no-such-file", 0, &mut buf) == Err(Failed));
    assert!(rt; shelf.put("no-such-folder/file", 0, b"a") == Err(Failed));
    assert!(rt; shelf.put("/dev/full", 0, b"a") == Err(Failed));
    Ok(())
}

#[test]
fn the_exit_code_is_the_status_of_the_answer(rt: HostRuntime) -> Result<(), Fail> {
    assert!(rt; ExitCode::from(Answer::NoMemory.status()) == ExitCode::from(12));
    Ok(())
}
