//! Putting a file.

ghost use Rattle.std.specs.Prelude.{◌≤◌, ◌<◌, ◌^◌, length};
ghost use Rattle.put_file.specs.Stores.{Stores};

use crate::put_fault::PutFault;
use derivation_log::Printer;
use qc_base::Shelf;

/// The most bytes that are put at once.
const PIECE: usize = 1 << 16;

/// Puts the bytes under the name, piece after piece.
pub fn put_whole<S: Shelf>(shelf: &mut S, name: &str, bytes: &[u8]) -> Result<(), PutFault>
    ensures { Stores name.now bytes.now (S.facts shelf.old) (S.facts shelf.new) result }
{
    let mut done = bytes.len().min(PIECE);
    shelf.put(name, 0, &bytes[..done])?;
    while done < bytes.len() {
        let end = bytes.len().min(done + PIECE);
        shelf.put(name, done as u64, &bytes[done..end])?;
        done = end;
    }
    Ok(())
}

/// Puts the text of a printer under the name, piece after piece.
pub fn put_printed<S: Shelf>(
    shelf: &mut S,
    name: &str,
    printer: &mut Printer,
) -> Result<(), PutFault>
    requires some { 1 ≤ length printer.old }
    requires few { length printer.old < 2 ^ 64 }
    ensures { Stores name.now printer.old (S.facts shelf.old) (S.facts shelf.new) result }
{
    let mut done: u64 = 0;
    while let Some(piece) = printer.next() {
        shelf.put(name, done, piece)?;
        done += piece.len() as u64;
    }
    Ok(())
}
