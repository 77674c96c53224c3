//! What is put.

ghost use Rattle.std.specs.Prelude.{◌≡◌};
ghost use Rattle.put_file.specs.Stores.{Stores};

use crate::certificate::Certificate;
use crate::put_fault::PutFault;
use crate::putting::{put_printed, put_whole};
use qc_base::{Items, Shelf};
use std::alloc::Global;
use std::marker::Model;

/// The bytes that are put, or what prints them.
#[derive(Debug, Drop)]
enum Bytes {
    Text(Items<u8>),
    Lines(Certificate),
}

/// What is put. Contracts see its bytes.
#[derive(Debug, Drop)]
pub struct Put {
    bytes: Bytes,
}

impl Model for Put {
    ghost use Rattle.std.specs.Prelude.{List, ℕ};
    ghost use Rattle.put_file.specs.PutBytes.{bytes_in};

    ghost Value = { List ℕ };

    ghost view = { λ p. bytes_in p.bytes };
}

// Puts the bytes of a certificate under the name.
fn put_lines<S: Shelf>(
    alloc: Global,
    shelf: &mut S,
    name: &str,
    certificate: &Certificate,
) -> Result<(), PutFault>
    ensures { Stores name.now certificate.now (S.facts shelf.old) (S.facts shelf.new) result }
{
    let mut printer = certificate.printer(alloc)?;
    put_printed(shelf, name, &mut printer)
}

impl Put {
    /// A text is put.
    pub fn text(text: Items<u8>) -> Put
        ensures { result ≡ text }
    {
        Put {
            bytes: Bytes::Text(text),
        }
    }

    /// A certificate is put.
    pub fn lines(certificate: Certificate) -> Put
        ensures { result ≡ certificate }
    {
        Put {
            bytes: Bytes::Lines(certificate),
        }
    }

    /// Puts the bytes under the name. Memory runs out only before anything is put.
    pub fn store<S: Shelf>(&self, alloc: Global, shelf: &mut S, name: &str) -> Result<(), PutFault>
        ensures { Stores name.now self.now (S.facts shelf.old) (S.facts shelf.new) result }
    {
        match &self.bytes {
            Bytes::Text(text) => put_whole(shelf, name, text.items()),
            Bytes::Lines(certificate) => put_lines(alloc, shelf, name, certificate),
        }
    }
}
