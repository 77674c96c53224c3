//! A certificate that is put.

ghost use Rattle.std.specs.Prelude.{◌≡◌, ◌<◌, ◌≤◌, ◌^◌, length, IfSome, IfOk};
ghost use Rattle.sat_base.specs.Certificate.{certificate_text};
ghost use Rattle.derivation_log.specs.Printing.{first_lines, Covers};
ghost use Rattle.put_file.specs.Printable.{IsPrintable};

use derivation_log::{Log, Printer};
use qc_base::NoMemory;
use sat_base::Head;
use std::alloc::Global;
use std::marker::Model;

/// A certificate: a head, and so many first derived lines of a log over so many first axioms. Contracts see its
/// bytes.
#[derive(Debug, Drop)]
pub struct Certificate {
    log: Log,
    head: Head,
    axioms: u64,
    lines: u64,
}

impl Model for Certificate {
    ghost use Rattle.std.specs.Prelude.{List, ℕ};
    ghost use Rattle.sat_base.specs.Certificate.{certificate_text};
    ghost use Rattle.derivation_log.specs.Printing.{first_lines};
    ghost use Rattle.put_file.specs.Printable.{IsPrintable};

    ghost Value = { List ℕ };

    ghost view = { λ c. certificate_text c.head c.axioms (first_lines c.log c.axioms c.lines) };

    ghost invariant = { λ c. IsPrintable c.log c.head c.axioms c.lines };
}

// How many bytes are left, where 64 bits can count them.
fn count_left(printer: &mut Printer) -> Option<u64>
    ensures { IfSome result (λ count. count ≡ length printer.old) }
{
    let mut count: u64 = 0;
    while let Some(piece) = printer.next() {
        count = count.checked_add(piece.len() as u64)?;
    }
    Some(count)
}

// Whether 64 bits can count the bytes of these lines' text. More would need more memory than a machine has.
fn count(alloc: Global, log: &Log, head: Head, axioms: u64, lines: u64) -> Result<u64, NoMemory>
    requires { Covers log.now axioms lines }
    ensures { IfOk result (λ count.
        count ≡ length (certificate_text head axioms (first_lines log.now axioms lines))) }
{
    match log.printer(alloc, head, axioms, lines) {
        Ok(mut printer) => match count_left(&mut printer) {
            Some(count) => Ok(count),
            None => Err(NoMemory),
        },
        Err(NoMemory) => Err(NoMemory),
    }
}

impl Certificate {
    /// The certificate of these lines.
    pub fn new(
        alloc: Global,
        log: Log,
        head: Head,
        axioms: u64,
        lines: u64,
    ) -> Result<Certificate, NoMemory>
        requires { Covers log axioms lines }
        ensures { IfOk result (λ certificate.
            certificate ≡ certificate_text head axioms (first_lines log axioms lines)) }
    {
        let _count = count(alloc, &log, head, axioms, lines)?;
        Ok(Certificate {
            log,
            head,
            axioms,
            lines,
        })
    }

    /// A printer of its bytes, which 64 bits can count.
    pub fn printer(&self, alloc: Global) -> Result<Printer<'_>, NoMemory>
        ensures printer { IfOk result (λ printer. printer ≡ self.now) }
        ensures some { 1 ≤ length self.now }
        ensures few { length self.now < 2 ^ 64 }
    {
        self.log.printer(alloc, self.head, self.axioms, self.lines)
    }
}
