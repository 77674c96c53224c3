//! Files, and the standard output and error, as a shelf and as sinks. Nothing is known of what they hold.

ghost use Rattle.std.specs.Prelude.{◌≡◌, ℕ, ◌+◌, ◌<◌, ◌≤◌, List, length, take, min, IsTrue, IsErr, IfOk, IfSome, OnOk, OnErr};
ghost use Rattle.std.specs.Io.KnownBytes.{ReadConsumes, WriteAppends, Appends};
ghost use Rattle.qc_base.specs.Causes.{HasCause, counted};
ghost use Rattle.qc_base.specs.Sink.{Took};
ghost use Rattle.real_devices.specs.Edge.{unknown_bytes, silent};

use qc_base::{Failed, NoMemory, Shelf, Sink};
use std::alloc::Global;
use std::fs::{self, OpenFile, OpenOptions};
use std::io::{self, ErrorKind, Read, Seek, SeekFrom, Write};
use std::marker::Model;
use std::rt::Files;

/// How often an interrupted call is made before it counts as failed.
const TRIES: u32 = 1000;

/// The system opens no longer path.
const LONGEST_PATH: usize = 4096;

/// Whether a call was interrupted and may be made again.
fn is_interrupted<T>(outcome: &io::Result<T>) -> bool
    ensures { IsTrue result → IsErr outcome.now }
{
    match outcome {
        Ok(_) => false,
        Err(e) => e.kind() == ErrorKind::Interrupted,
    }
}

/// Reads once more for each time that it is interrupted.
fn read_on<F: Read>(file: &mut F, buf: &mut [u8]) -> io::Result<usize>
    ensures bound { IfOk result (λ count. count ≤ length buf.new) }
    ensures bytes { ReadConsumes (F.remaining file.old) (F.remaining file.new) result buf.new }
{
    let mut outcome = file.read(buf);
    for _ in 0..TRIES {
        if !is_interrupted(&outcome) {
            break;
        }
        outcome = file.read(buf);
    }
    outcome
}

/// Writes once more for each time that it is interrupted.
fn write_on<W: Write>(writer: &mut W, piece: &[u8]) -> io::Result<usize>
    ensures bound { IfOk result (λ count. count ≤ length piece.now) }
    ensures bytes { WriteAppends (W.contents writer.old) (W.contents writer.new) result piece.now }
{
    let mut outcome = writer.write(piece);
    for _ in 0..TRIES {
        if !is_interrupted(&outcome) {
            break;
        }
        outcome = writer.write(piece);
    }
    outcome
}

/// An open file, what it is open for, and the place in it that comes next.
#[derive(Drop)]
struct Opened<F> {
    file: F,
    is_put: bool,
    next: u64,
}

impl<F: Read + Seek> Opened<F> {
    /// Reads from a place on. It seeks only where that place is not the next one, since not every file can seek.
    fn read(&mut self, from: u64, buf: &mut [u8]) -> io::Result<usize>
        ensures bound { IfOk result (λ count. count ≤ length buf.new) }
        ensures bytes { from ≡ self.old.next
            → ReadConsumes (F.remaining self.old.file) (F.remaining self.new.file) result buf.new }
        ensures next { IfOk result (λ count. self.new.next ≡ min (from + count) u64.MAX) }
    {
        if from != self.next {
            self.file.seek(SeekFrom::Start(from))?;
        }
        let count = read_on(&mut self.file, buf)?;
        self.next = from.saturating_add(count as u64);
        Ok(count)
    }
}

/// Hands what was written to the device, where it can be asked to.
fn sync<F: OpenFile>(file: &F) -> io::Result<()> {
    match file.sync_all() {
        Err(e) if e.kind() == ErrorKind::InvalidInput => Ok(()),
        outcome => outcome,
    }
}

impl<F: Write + OpenFile> Opened<F> {
    /// Appends a piece, and sees to it that the device has it.
    fn append(&mut self, piece: &[u8]) -> io::Result<()>
        ensures bytes { OnOk result (Appends (F.contents self.old.file) (F.contents self.new.file) piece.now) }
        ensures next { OnOk result (self.new.next ≡ min (self.old.next + length piece.now) u64.MAX) }
    {
        self.file.write_all(piece)?;
        self.file.flush()?;
        sync(&self.file)?;
        self.next = self.next.saturating_add(piece.len() as u64);
        Ok(())
    }
}

/// The files of the system, by their paths. The last one stays open, so that what cannot seek is read on.
#[derive(Drop)]
pub struct RealShelf<'a, R: Files> {
    files: &'a R,
    name: Vec<u8>,
    opened: Option<Opened<R::File>>,
    faults: u64,
}

impl<'a, R: Files> RealShelf<'a, R> {
    /// A shelf of these files, of which no call has failed yet.
    pub fn new(alloc: Global, files: &'a R) -> Result<RealShelf<'a, R>, NoMemory> {
        Ok(RealShelf {
            files,
            name: Vec::with_capacity(alloc, LONGEST_PATH)?,
            opened: None,
            faults: 0,
        })
    }

    /// Whether the open file has this name.
    fn has_name(&self, name: &str) -> bool {
        self.name.as_slice() == name.as_bytes()
    }

    /// Keeps the name of the file that is opened. It takes no memory.
    fn set_name(&mut self, name: &str) -> Option<()>
        ensures { self.new.faults ≡ self.old.faults }
    {
        if name.len() > LONGEST_PATH {
            return None;
        }
        self.name.clear();
        self.name.extend_from_slice(name.as_bytes()).ok()
    }

    /// The file of a name, open to be read.
    fn to_read(&mut self, name: &str) -> Option<Opened<R::File>>
        ensures { self.new.faults ≡ self.old.faults }
    {
        if let Some(opened) = self.opened.take() {
            if !opened.is_put && self.has_name(name) {
                return Some(opened);
            }
        }
        self.set_name(name)?;
        let file = fs::open(self.files, name).ok()?;
        Some(Opened {
            file,
            is_put: false,
            next: 0,
        })
    }

    /// The file of a name, open to be written from a place on: anew from its beginning, else after what is there.
    fn to_put(&mut self, name: &str, from: u64) -> Option<Opened<R::File>>
        ensures { self.new.faults ≡ self.old.faults }
    {
        if let Some(opened) = self.opened.take() {
            if opened.is_put && from > 0 && opened.next == from && self.has_name(name) {
                return Some(opened);
            }
        }
        self.set_name(name)?;
        let mut options = OpenOptions::new();
        options.write(true).create(from == 0).truncate(from == 0);
        let mut file = options.open(self.files, name).ok()?;
        if from > 0 {
            file.seek(SeekFrom::Start(from)).ok()?;
        }
        Some(Opened {
            file,
            is_put: true,
            next: from,
        })
    }

    /// Reads a file from a place on, or nothing where that fails.
    fn read_file(&mut self, name: &str, from: u64, buf: &mut [u8]) -> Option<usize>
        ensures bound { IfSome result (λ count. count ≤ length buf.new) }
        ensures faults { self.new.faults ≡ self.old.faults }
    {
        let mut opened = self.to_read(name)?;
        let count = opened.read(from, buf).ok()?;
        self.opened = Some(opened);
        Some(count)
    }

    /// Puts a piece, or nothing where that fails.
    fn put_file(&mut self, name: &str, from: u64, piece: &[u8]) -> Option<()>
        ensures { self.new.faults ≡ self.old.faults }
    {
        let mut opened = self.to_put(name, from)?;
        opened.append(piece).ok()?;
        self.opened = Some(opened);
        Some(())
    }

    /// Counts a fault.
    fn fault(&mut self) -> Failed
        ensures counts { self.new.faults ≡ counted self.old.faults }
        ensures later { self.old.faults ≤ self.new.faults }
    {
        self.faults = self.faults.saturating_add(1);
        Failed
    }
}

impl<R: Files> Shelf for RealShelf<'_, R> {
    ghost facts = { λ s. silent s.faults };

    fn read(&mut self, name: &str, from: u64, buf: &mut [u8]) -> Result<usize, Failed> {
        match self.read_file(name, from, buf) {
            Some(count) => Ok(count),
            None => Err(self.fault()),
        }
    }

    fn put(&mut self, name: &str, from: u64, piece: &[u8]) -> Result<(), Failed> {
        match self.put_file(name, from, piece) {
            Some(()) => Ok(()),
            None => Err(self.fault()),
        }
    }
}

/// A writer of the system.
#[derive(Drop)]
pub struct RealSink<W> {
    writer: W,
    faults: u64,
}

impl<W: Write> RealSink<W> {
    /// A sink over this writer, of which no write has failed yet.
    pub fn new(writer: W) -> RealSink<W> {
        RealSink { writer, faults: 0 }
    }
}

impl<W: Write> Sink for RealSink<W> {
    ghost taken = { λ s. unknown_bytes };

    ghost faults = { λ s. s.faults };

    fn write(&mut self, piece: &[u8]) -> Result<usize, Failed>
        ensures bound { IfOk result (λ count. count ≤ length piece.now) }
        ensures progress { IfOk result (λ count. 0 < length piece.now → 0 < count) }
        ensures took { IfOk result (λ count. Took unknown_bytes unknown_bytes (take count piece.now)) }
        ensures none { OnErr result (unknown_bytes ≡ unknown_bytes) }
        ensures cause { HasCause self.old.faults self.new.faults result }

        // By what the writer reports: it holds exactly the bytes more that are reported, and none after a failure.
        ensures bytes { WriteAppends (W.contents self.old.writer) (W.contents self.new.writer) result piece.now }
    {
        match write_on(&mut self.writer, piece) {
            Ok(count) if count > 0 || piece.is_empty() => Ok(count),
            _ => {
                self.faults = self.faults.saturating_add(1);
                Err(Failed)
            }
        }
    }
}
