//! Expressions in the parameters of a gate.

ghost use Rattle.std.specs.Prelude.{◌≡◌};
ghost use Rattle.gate_names.specs.Causes.{Gives, found_or};
ghost use Rattle.gate_names.specs.Terms.{position_of, term_of, terms_of};
ghost use Rattle.gate_names.specs.declared.cause.Cause.TheVariants.{Undeclared};

use crate::cause::Cause;
use circuit_core::{BinOp, FunName};
use qasm_read::Exp;
use qc_base::{Items, Name};
use sqlite_items::Boxed;
use std::alloc::Global;

/// An expression in which each parameter of the gate is its position among them.
#[derive(Drop)]
pub enum Term {
    Real(Name),
    Int(u64),
    Pi,
    Neg(Boxed<Term>),
    Bin(BinOp, Boxed<Term>, Boxed<Term>),
    Fun(FunName, Boxed<Term>),
    Param(usize),
}

/// Such expressions, in order.
pub type Terms = Items<Term>;

/// The position of a name among others.
pub fn position(names: &[Name], name: &Name) -> Result<usize, Cause>
    ensures { Gives (λ k. k) result (found_or (position_of names.now name.now) Undeclared) }
{
    for k in 0..names.len() {
        if *name == names[k] {
            return Ok(k);
        }
    }
    Err(Cause::Undeclared)
}

/// The expression in these parameters.
fn term_of(alloc: Global, params: &[Name], exp: &Exp) -> Result<Term, Cause>
    ensures { Gives (λ term. term) result (term_of params.now exp.now) }
{
    match exp {
        Exp::Real(text) => Ok(Term::Real(text.copy(alloc)?)),
        Exp::Int(n) => Ok(Term::Int(*n)),
        Exp::Pi => Ok(Term::Pi),
        Exp::Neg(a) => Ok(Term::Neg(Boxed::new(alloc, term_of(alloc, params, a.get())?)?)),
        Exp::Bin(op, a, b) => {
            let a = term_of(alloc, params, a.get())?;
            let b = term_of(alloc, params, b.get())?;
            Ok(Term::Bin(*op, Boxed::new(alloc, a)?, Boxed::new(alloc, b)?))
        }
        Exp::Fun(f, a) => Ok(Term::Fun(*f, Boxed::new(alloc, term_of(alloc, params, a.get())?)?)),
        Exp::Id(name) => Ok(Term::Param(position(params, name)?)),
    }
}

/// The expressions in these parameters.
pub fn terms_of(alloc: Global, params: &[Name], exps: &[Exp]) -> Result<Terms, Cause>
    ensures { Gives (λ terms. terms) result (terms_of params.now exps.now) }
{
    let mut terms = Vec::new(alloc);
    for exp in exps {
        terms.push(term_of(alloc, params, exp)?)?;
    }
    Ok(Items::from_vec(terms))
}
