//! A certificate of one line: accepted, edited, cut, and fed in pieces.

ghost use Rattle.std.specs.Prelude.{◌<◌};

use derivation_check::{CertFault, Checker, ReadHead};
use sat_base::{Bound, Formula, Head, Lit};
use std::alloc::Global;
use std::test::Fail;

// The clauses 1, 2, 3, -4 and -5 4.
pub fn small_formula(alloc: Global) -> Result<Formula, Fail> {
    let mut formula = Formula::new(alloc);
    formula.push(&[Lit::new(1, true)])?;
    formula.push(&[Lit::new(2, true)])?;
    formula.push(&[Lit::new(3, true)])?;
    formula.push(&[Lit::new(4, false)])?;
    formula.push(&[Lit::new(5, false), Lit::new(4, true)])?;
    Ok(formula)
}

// What is answered of a text that is fed in pieces of that length, with the goal 5.
fn answer(
    alloc: Global,
    text: &[u8],
    step: usize,
    limit: u64,
) -> Result<Result<u64, CertFault>, Fail>
    requires { 0 < step }
{
    let mut checker = Checker::new(alloc, small_formula(alloc)?, 5, limit);
    for piece in text.chunks(step) {
        if let Err(fault) = checker.feed(piece) {
            return Ok(Err(fault));
        }
    }
    Ok(checker.finish(5))
}

const LINE: Result<u64, CertFault> = Err(CertFault::Line { n: 4 });

const BAD: Result<u64, CertFault> = Err(CertFault::Bad { n: 4 });

#[test]
fn judges_edited_lines(rt: HostRuntime) -> Result<(), Fail> {
    let table = [
        ("6 -5 0 5 4 0\n", Ok(1)),
        ("6 -5 0 4 5 0\n", Ok(1)),
        ("6 -5 0 5 4 0\n7 -5 0 6 0\n", Ok(2)),
        ("", Err(CertFault::NotRefuting)),
        ("6 5 0 5 4 0\n", BAD),
        ("6 -5 0 5 0\n", BAD),
        ("6 -5 0 5 3 0\n", BAD),
        ("6 -5 0 5 4 4 0\n", BAD),
        ("6 -5 0 0\n", LINE),
        ("6 -5 0 5 6 0\n", LINE),
        ("7 -5 0 5 4 0\n", LINE),
        ("06 -5 0 5 4 0\n", LINE),
        ("6 -6 0 5 4 0\n", LINE),
        ("6 -5 0 5 4 0", LINE),
    ];
    for (text, wanted) in table {
        for step in 1..4 {
            let got = answer(rt.alloc(), text.as_bytes(), step, 1000)?;
            assert_eq!(rt; got, wanted, "{text:?}");
        }
    }
    Ok(())
}

#[test]
fn judges_lines_that_are_cut(rt: HostRuntime) -> Result<(), Fail> {
    let text = b"6 -5 0 5 4 0\n";
    for len in 1..text.len() {
        assert_eq!(rt; answer(rt.alloc(), &text[..len], len, 1000)?, LINE);
    }
    assert_eq!(rt; answer(rt.alloc(), text, text.len(), 1000)?, Ok(1));
    Ok(())
}

#[test]
fn stops_past_the_limit(rt: HostRuntime) -> Result<(), Fail> {
    let mut checker = Checker::new(rt.alloc(), small_formula(rt.alloc())?, 5, 10);
    for _ in 0..10 {
        assert_eq!(rt; checker.feed(b"1"), Ok(()));
    }
    assert_eq!(rt; checker.feed(b"1"), Err(CertFault::Endless));
    assert_eq!(rt; checker.finish(5), Err(CertFault::Endless));
    Ok(())
}

#[test]
fn reads_heads(rt: HostRuntime) {
    let text = b"qccd certificate 1\nencoding 1\nrefutes 0\n";
    for len in 0..text.len() {
        let n = if len < 19 {
            1
        } else if len < 30 {
            2
        } else {
            3
        };
        assert_eq!(rt; Head::read(&text[..len]), Err(CertFault::Line { n }));
    }
    let head = Head {
        encoding: 1,
        bound: Bound::Refutes(0),
    };
    assert_eq!(rt; Head::read(text), Ok((head, 40)));
    let other = Head {
        encoding: 2,
        bound: Bound::Open(3),
    };
    let counted = b"qccd certificate 1\nencoding 2\nopen 3\n7 ";
    assert_eq!(rt; Head::read(counted), Ok((other, 37)));
    assert_eq!(rt;
        Head::read(b"qccd certificate 2\n"),
        Err(CertFault::Line { n: 1 })
    );
    assert_eq!(rt;
        Head::read(b"qccd certificate 1\nencoding 3\nrefutes 0\n"),
        Err(CertFault::Line { n: 2 })
    );
}
