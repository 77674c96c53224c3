//! The derivation of one line, and its certificate.

use super::certificates::small_formula;
use derivation_log::{LineId, LinesFault, Log};
use sat_base::{Bound, Head, Lit};
use std::alloc::Global;
use std::test::Fail;

const FIRST: LineId = LineId {
    derived: false,
    number: 1,
};

const SECOND: LineId = LineId {
    derived: false,
    number: 2,
};

#[test]
fn one_line_is_derived_and_printed(rt: HostRuntime) -> Result<(), Fail> {
    let mut log = Log::new(rt.alloc());
    let first = log.axiom(&[Lit::new(2, false), Lit::new(1, true)])?;
    let second = log.axiom(&[Lit::new(1, false)])?;
    assert_eq!(rt; (first, second), (FIRST, SECOND));
    let line = log.derive(&[FIRST, SECOND])?;
    assert_eq!(rt; log.clause(line), [Lit::new(2, false)].as_slice());
    assert_eq!(rt; log.hints(line), [FIRST, SECOND].as_slice());
    assert_eq!(rt; (log.axioms(), log.derived()), (2, 1));
    let head = Head {
        encoding: 1,
        bound: Bound::Refutes(0),
    };
    let mut printer = log.printer(rt.alloc(), head, 2, 1)?;
    let mut text = Vec::new(rt.alloc());
    if let Some(piece) = printer.next() {
        text.extend_from_slice(piece)?;
    }
    assert_eq!(rt;
        text.as_slice(),
        b"qccd certificate 1\nencoding 1\nrefutes 0\n3 -2 0 1 2 0\n".as_slice()
    );
    assert!(rt; printer.next().is_none());
    Ok(())
}

// The fault of the lines, which are counted from 4.
fn fault(alloc: Global, text: &[u8]) -> Result<Option<LinesFault>, Fail> {
    let formula = small_formula(alloc)?;
    Ok(Log::from_text(alloc, &formula, 5, text, 4).err())
}

#[test]
fn lines_are_read_back(rt: HostRuntime) -> Result<(), Fail> {
    let formula = small_formula(rt.alloc())?;
    let text = b"6 -5 0 5 4 0\n7 -5 0 6 0\n".as_slice();
    let Ok(log) = Log::from_text(rt.alloc(), &formula, 5, text, 4) else {
        panic!(rt; "the lines are good");
    };
    assert_eq!(rt; (log.axioms(), log.derived()), (5, 2));
    assert_eq!(rt; (log.refuting(5), log.refuting(4)), (Some(1), None));
    Ok(())
}

#[test]
fn first_faults_of_lines(rt: HostRuntime) -> Result<(), Fail> {
    let line = |n: u64| Some(LinesFault::Line { n });
    assert_eq!(rt; fault(rt.alloc(), b"")?, None);
    assert_eq!(rt;
        fault(rt.alloc(), b"6 5 0 5 4 0\n")?,
        Some(LinesFault::Bad { n: 4 })
    );
    assert_eq!(rt;
        fault(rt.alloc(), b"6 -5 0 5 4 0\n7 -5 0 5 0\n")?,
        Some(LinesFault::Bad { n: 5 })
    );
    assert_eq!(rt; fault(rt.alloc(), b"6 -5 0 5 4 0")?, line(4));
    assert_eq!(rt;
        fault(rt.alloc(), b"6 -5 0 5 4 0\n6 -5 0 5 4 0\n")?,
        line(5)
    );
    assert_eq!(rt; fault(rt.alloc(), b"6 -5 0 0\n")?, line(4));
    Ok(())
}
