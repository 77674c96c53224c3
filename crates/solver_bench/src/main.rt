//! Solves a formula in a DIMACS file, for bench/solver to measure.
#![tactic(auto)]

mod dimacs;
mod solving;

use cdcl::Verdict;
use solving::{Outcome, Solved, solve_text};
use std::alloc::Global;
use std::process::ExitCode;
use std::{env, fs, io};

// What a run without an answer ends with.
const USAGE: u8 = 2;

/// Why a run has no answer.
#[derive(Clone, Copy, Debug)]
enum Refusal {
    Usage,
    Budget,
    Memory,
    Unread,
}

/// What is said of a refusal.
fn text_of(refusal: Refusal) -> &'static str {
    match refusal {
        Refusal::Usage => "usage: solver_bench FILE BUDGET",
        Refusal::Budget => "the budget is no number",
        Refusal::Memory => "out of memory",
        Refusal::Unread => "not a formula in DIMACS",
    }
}

/// What is said of an answer.
fn name_of(verdict: Verdict) -> &'static str {
    match verdict {
        Verdict::Model => "satisfiable",
        Verdict::Refuted { .. } => "unsatisfiable",
        Verdict::Spent => "budget spent",
    }
}

/// Solves the formula of a text within a budget that is written in decimal.
fn solved(alloc: Global, text: &str, budget: &str) -> Result<Solved, Refusal> {
    let Ok(budget) = budget.parse::<u64>() else {
        return Err(Refusal::Budget);
    };
    match solve_text(alloc, text, budget) {
        Ok(Outcome::Solved(solved)) => Ok(solved),
        Ok(Outcome::Unread) => Err(Refusal::Unread),
        Err(_) => Err(Refusal::Memory),
    }
}

/// Solves the formula in the file that the words name.
fn answer_of(rt: &HostRuntime) -> io::Result<Result<Solved, Refusal>> {
    let mut words = Vec::new(rt.alloc());
    for word in env::args(rt)?.skip(1) {
        words.push(word)?;
    }
    if words.len() != 2 {
        return Ok(Err(Refusal::Usage));
    }
    let text = fs::read_to_string(rt, words[0].as_str())?;
    Ok(solved(rt.alloc(), &text, words[1].as_str()))
}

fn main(rt: HostRuntime) -> io::Result<ExitCode> {
    match answer_of(&rt)? {
        Ok(solved) => {
            println!(rt;
                "{}\nlines {}\nvisited {}",
                name_of(solved.verdict),
                solved.lines,
                solved.visited
            )?;
            Ok(ExitCode::from(0))
        }
        Err(refusal) => {
            println!(rt; "{}", text_of(refusal))?;
            Ok(ExitCode::from(USAGE))
        }
    }
}
