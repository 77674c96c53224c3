//! The gates that are there from the start.

ghost use Rattle.std.specs.Prelude.{◌≡◌, ◌+◌, ◌<◌, map, IfOk, IfSome};
ghost use Rattle.std.specs.Option.{option_map};
ghost use Rattle.gate_names.specs.Library.{built_in, library_names, first_library_gate, over, minus};
ghost use Rattle.gate_names.specs.LibraryRows.{joined, term_of, terms_of, positions_of, item_of, gate_of};
ghost use Rattle.gate_names.specs.Terms.{position_of};

use crate::gate::{Gate, Item};
use crate::gates::Gates;
use crate::library_rows::{Angles, Call, Qubits, Row, Turn, row_at};
use crate::term::Term;
use circuit_core::BinOp;
use qc_base::{Items, Name, NoMemory};
use sqlite_items::Boxed;
use std::alloc::Global;

/// How many gates the library has.
const ROWS: usize = 34;

/// The number of the library's first gate.
const FIRST: usize = 2;

/// The number of the library's gate of that name.
#[tactic(auto, using(crate::proofs::LibraryTables::named_here, crate::proofs::LibraryTables::named_later))]
pub fn library_gate_named(name: &Name) -> Option<usize>
    ensures gate { result ≡ option_map (λ k. first_library_gate + k) (position_of library_names name.now) }
    ensures known { IfSome result (λ number. number < 36) }
{
    for place in 0..ROWS {
        if let Some(row) = row_at(place) {
            if name.bytes() == row.name {
                return Some(FIRST + place);
            }
        }
    }
    None
}

fn over(alloc: Global, term: Term, n: u64) -> Result<Term, NoMemory>
    ensures { IfOk result (λ quotient. quotient ≡ over term n) }
{
    let term = Boxed::new(alloc, term)?;
    Ok(Term::Bin(BinOp::Div, term, Boxed::new(alloc, Term::Int(n))?))
}

fn minus(alloc: Global, term: Term) -> Result<Term, NoMemory>
    ensures { IfOk result (λ negated. negated ≡ minus term) }
{
    Ok(Term::Neg(Boxed::new(alloc, term)?))
}

fn joined(alloc: Global, op: BinOp, j: usize, k: usize) -> Result<Term, NoMemory>
    ensures { IfOk result (λ term. term ≡ joined op j k) }
{
    let left = Boxed::new(alloc, Term::Param(j))?;
    Ok(Term::Bin(op, left, Boxed::new(alloc, Term::Param(k))?))
}

/// The expression of a row's angle.
fn term_of(alloc: Global, turn: Turn) -> Result<Term, NoMemory>
    ensures { IfOk result (λ term. term ≡ term_of turn) }
{
    match turn {
        Turn::Zero => Ok(Term::Int(0)),
        Turn::Pi => Ok(Term::Pi),
        Turn::Param(k) => Ok(Term::Param(k)),
        Turn::PiOver(n) => over(alloc, Term::Pi, n),
        Turn::MinusPiOver(n) => over(alloc, minus(alloc, Term::Pi)?, n),
        Turn::Half(k) => over(alloc, Term::Param(k), 2),
        Turn::MinusHalf(k) => over(alloc, minus(alloc, Term::Param(k))?, 2),
        Turn::HalfSum(j, k) => over(alloc, joined(alloc, BinOp::Add, j, k)?, 2),
        Turn::HalfDifference(j, k) => over(alloc, joined(alloc, BinOp::Sub, j, k)?, 2),
        Turn::MinusHalfSum(j, k) => {
            let sum = joined(alloc, BinOp::Add, j, k)?;
            over(alloc, minus(alloc, sum)?, 2)
        }
    }
}

fn terms_of(alloc: Global, angles: Angles) -> Result<Vec<Term>, NoMemory>
    ensures { IfOk result (λ terms. terms.items ≡ terms_of angles) }
{
    let mut terms = Vec::new(alloc);
    match angles {
        Angles::NoAngle => (),
        Angles::OneAngle(t) => terms.push(term_of(alloc, t)?)?,
        Angles::TwoAngles(t, u) => {
            terms.push(term_of(alloc, t)?)?;
            terms.push(term_of(alloc, u)?)?;
        }
        Angles::ThreeAngles(t, u, v) => {
            terms.push(term_of(alloc, t)?)?;
            terms.push(term_of(alloc, u)?)?;
            terms.push(term_of(alloc, v)?)?;
        }
    }
    Ok(terms)
}

fn positions_of(alloc: Global, qubits: Qubits) -> Result<Vec<usize>, NoMemory>
    ensures { IfOk result (λ positions. positions.items ≡ positions_of qubits) }
{
    let positions = match qubits {
        Qubits::On(j) => Vec::from_slice(alloc, &[j])?,
        Qubits::OnTwo(j, k) => Vec::from_slice(alloc, &[j, k])?,
        Qubits::OnThree(j, k, l) => Vec::from_slice(alloc, &[j, k, l])?,
    };
    Ok(positions)
}

/// The calls of a row as the items of a body.
fn items_of(alloc: Global, calls: &[Call]) -> Result<Vec<Item>, NoMemory>
    ensures { IfOk result (λ items. items.items ≡ map item_of calls.now) }
{
    let mut items = Vec::new(alloc);
    for call in calls {
        items.push(Item::Call {
            gate: call.0,
            params: Items::from_vec(terms_of(alloc, call.1)?),
            qubits: Items::from_vec(positions_of(alloc, call.2)?),
        })?;
    }
    Ok(items)
}

/// The gate of a row.
fn gate_of(alloc: Global, row: &Row) -> Result<Gate, NoMemory>
    ensures { IfOk result (λ gate. gate ≡ (gate_of row.now).gate) }
{
    Ok(Gate::Body {
        params: row.params,
        qubits: row.qubits,
        items: Items::from_vec(items_of(alloc, row.calls)?),
    })
}

/// U, CX and the gates of the library.
#[tactic(auto, using(crate::proofs::LibraryTables::library_row_below, crate::proofs::LibraryTables::gates_more))]
pub fn built_in(alloc: Global) -> Result<Gates, NoMemory>
    ensures { IfOk result (λ gates. gates ≡ built_in) }
{
    let mut gates = Gates::new(alloc);
    gates.push(Gate::Universal)?;
    gates.push(Gate::ControlledNot)?;
    for place in 0..ROWS {
        if let Some(row) = row_at(place) {
            gates.push(gate_of(alloc, &row)?)?;
        }
    }
    Ok(gates)
}
