//! Words, and what they ask for.

use request_words::{Exact, PlaceRule, Request, request_of};
use std::alloc::{AllocError, Global};
use std::process::Abort;
use std::test::Fail;

type Row<'a> = (&'a [&'a str], Option<Request<'a>>);

/// The texts as words of a command line.
pub fn words_of(alloc: Global, texts: &[&str]) -> Result<Vec<String>, AllocError> {
    let mut words = Vec::new(alloc);
    for text in texts {
        words.push(String::from_str(alloc, text)?)?;
    }
    Ok(words)
}

/// Whether the words of each row ask for its request.
fn ask(rt: &impl Abort, alloc: Global, rows: &[Row]) -> Result<(), Fail> {
    for (texts, request) in rows {
        let words = words_of(alloc, texts)?;
        assert!(rt; request_of(&words) == *request);
    }
    Ok(())
}

/// A compilation of the circuit `c` for the trap `t`.
const fn compile<'a>(rule: PlaceRule, exact: Option<Exact<'a>>) -> Option<Request<'a>> {
    Some(Request::Compile {
        circuit: "c",
        trap: "t",
        rule,
        exact,
    })
}

/// Exact mode with the certificate `x`.
const fn exact<'a>(max: u64, budget: u64) -> Option<Exact<'a>> {
    Some(Exact {
        cert: "x",
        max,
        budget,
    })
}

#[test]
fn compilations(rt: HostRuntime) -> Result<(), Fail> {
    let rows: [Row; 7] = [
        (&["compile", "c", "t"], compile(PlaceRule::Declared, None)),
        (
            &["compile", "c", "t", "--place=declared"],
            compile(PlaceRule::Declared, None),
        ),
        (
            &["compile", "c", "t", "--place=first-use"],
            compile(PlaceRule::FirstUse, None),
        ),
        (
            &["compile", "c", "t", "--place=given", "--exact=x"],
            compile(PlaceRule::Given, exact(48, 100_000)),
        ),
        (
            &["compile", "c", "t", "--max=0", "--exact=x"],
            compile(PlaceRule::Declared, exact(0, 100_000)),
        ),
        (
            &["compile", "c", "t", "--exact=x", "--budget=1"],
            compile(PlaceRule::Declared, exact(48, 1)),
        ),
        (
            &[
                "compile",
                "c",
                "t",
                "--exact=x",
                "--max=18446744073709551615",
            ],
            compile(PlaceRule::Declared, exact(u64::MAX, 100_000)),
        ),
    ];
    ask(&rt, rt.alloc(), &rows)
}

#[test]
fn no_compilations(rt: HostRuntime) -> Result<(), Fail> {
    let rows: [&[&str]; 15] = [
        &["compile", "c"],
        &["compile", "c", ""],
        &["compile", "--c", "t"],
        &["compile", "c", "--place=declared", "t"],
        &["compile", "c", "t", "u"],
        &["compile", "c", "t", "--place=last"],
        &["compile", "c", "t", "--place=given", "--place=given"],
        &["compile", "c", "t", "--max=3"],
        &["compile", "c", "t", "--budget=3"],
        &["compile", "c", "t", "--exact="],
        &["compile", "c", "t", "--exact=c"],
        &["compile", "c", "t", "--exact=t"],
        &["compile", "c", "t", "--exact=x", "--max=03"],
        &[
            "compile",
            "c",
            "t",
            "--exact=x",
            "--max=18446744073709551616",
        ],
        &["compile", "c", "t", "--exact=x", "--budget=0"],
    ];
    for texts in rows {
        let words = words_of(rt.alloc(), texts)?;
        assert!(rt; request_of(&words).is_none());
    }
    Ok(())
}

#[test]
fn other_commands(rt: HostRuntime) -> Result<(), Fail> {
    let (circuit, trap, schedule, cert) = ("c", "t", "s", "x");
    let rows: [Row; 4] = [
        (
            &["check", "c", "t", "s"],
            Some(Request::Check {
                circuit,
                trap,
                schedule,
            }),
        ),
        (
            &["report", "c", "t", "s"],
            Some(Request::Report {
                circuit,
                trap,
                schedule,
            }),
        ),
        (
            &["verify", "c", "t", "s", "x"],
            Some(Request::Verify {
                circuit,
                trap,
                schedule,
                cert,
            }),
        ),
        (
            &["load", "7", "s"],
            Some(Request::Load { seed: 7, schedule }),
        ),
    ];
    ask(&rt, rt.alloc(), &rows)
}

#[test]
fn no_requests(rt: HostRuntime) -> Result<(), Fail> {
    let rows: [Row; 14] = [
        (&[], None),
        (&[""], None),
        (&["route", "c", "t"], None),
        (&["Check", "c", "t", "s"], None),
        (&["check", "c", "t"], None),
        (&["check", "c", "t", "s", "s"], None),
        (&["check", "c", "t", "--s"], None),
        (&["report", "c", "", "s"], None),
        (&["verify", "c", "t", "s"], None),
        (&["verify", "c", "t", "s", "c"], None),
        (&["verify", "c", "t", "s", "t"], None),
        (&["load", "+7", "s"], None),
        (&["load", "18446744073709551616", "s"], None),
        (&["load", "7", "--s"], None),
    ];
    ask(&rt, rt.alloc(), &rows)
}

#[test]
fn names_that_are_put(rt: HostRuntime) -> Result<(), Fail> {
    let rows: [(&[&str], Option<&str>); 4] = [
        (&["compile", "c", "t"], None),
        (&["compile", "c", "t", "--exact=x"], Some("x")),
        (&["verify", "c", "t", "s", "x"], None),
        (&["load", "7", "s"], Some("s")),
    ];
    for (texts, name) in rows {
        let words = words_of(rt.alloc(), texts)?;
        let put = request_of(&words).and_then(|request| request.put());
        assert!(rt; put == name);
    }
    Ok(())
}
