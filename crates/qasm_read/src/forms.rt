//! Names, arguments and lists with commas, read.

ghost use Rattle.std.specs.Prelude.{◌≡◌};
ghost use Rattle.qasm_read.specs.Reading.{Gives, index_at, argument_at, commas_at, name_at, parameters_at, some_in_parentheses, within, formals_at};
ghost use Rattle.qasm_read.specs.Expressions.{exp_at};

use crate::arg::{Arg, Args};
use crate::exp::Exps;
use crate::expressions::expression;
use crate::names::Names;
use crate::stop::Stop;
use crate::tokens::Tokens;
use qasm_tokens::{Sign, TokenSource};
use std::alloc::Global;

/// Reads an index in brackets.
pub fn index<T: TokenSource + Drop>(tokens: &mut Tokens<T>) -> Result<u64, Stop>
    ensures { Gives result tokens.new (index_at tokens.old) }
{
    tokens.skip(Sign::LeftBracket)?;
    let index = tokens.integer()?;
    tokens.skip(Sign::RightBracket)?;
    Ok(index)
}

/// Reads a name, and perhaps an index.
pub fn argument<T: TokenSource + Drop>(tokens: &mut Tokens<T>) -> Result<Arg, Stop>
    ensures { Gives result tokens.new (argument_at tokens.old) }
{
    let name = tokens.name()?;
    if !tokens.comes(Sign::LeftBracket) {
        return Ok(Arg { name, index: None });
    }
    let index = index(tokens)?;
    Ok(Arg {
        name,
        index: Some(index),
    })
}

/// Reads names with commas between.
pub fn names<T: TokenSource + Drop>(alloc: Global, tokens: &mut Tokens<T>) -> Result<Names, Stop>
    ensures { Gives result tokens.new (commas_at name_at tokens.old) }
{
    let mut names = Vec::new(alloc);
    names.push(tokens.name()?)?;
    while tokens.comes(Sign::Comma) {
        tokens.skip(Sign::Comma)?;
        names.push(tokens.name()?)?;
    }
    Ok(Names::from_vec(names))
}

/// Reads arguments with commas between.
pub fn arguments<T: TokenSource + Drop>(alloc: Global, tokens: &mut Tokens<T>) -> Result<Args, Stop>
    ensures { Gives result tokens.new (commas_at argument_at tokens.old) }
{
    let mut args = Vec::new(alloc);
    args.push(argument(tokens)?)?;
    while tokens.comes(Sign::Comma) {
        tokens.skip(Sign::Comma)?;
        args.push(argument(tokens)?)?;
    }
    Ok(Args::from_vec(args))
}

/// Reads expressions with commas between.
fn expressions<T: TokenSource + Drop>(alloc: Global, tokens: &mut Tokens<T>) -> Result<Exps, Stop>
    ensures { Gives result tokens.new (commas_at exp_at tokens.old) }
{
    let mut exps = Vec::new(alloc);
    exps.push(expression(alloc, tokens)?)?;
    while tokens.comes(Sign::Comma) {
        tokens.skip(Sign::Comma)?;
        exps.push(expression(alloc, tokens)?)?;
    }
    Ok(Exps::from_vec(exps))
}

/// Reads expressions in parentheses.
pub fn some_actuals<T: TokenSource + Drop>(
    alloc: Global,
    tokens: &mut Tokens<T>,
) -> Result<Exps, Stop>
    ensures { Gives result tokens.new (some_in_parentheses exp_at tokens.old) }
{
    tokens.skip(Sign::LeftParenthesis)?;
    let exps = expressions(alloc, tokens)?;
    tokens.skip(Sign::RightParenthesis)?;
    Ok(exps)
}

/// Reads expressions in parentheses, which may be absent.
pub fn actuals<T: TokenSource + Drop>(alloc: Global, tokens: &mut Tokens<T>) -> Result<Exps, Stop>
    ensures { Gives result tokens.new (parameters_at exp_at tokens.old) }
{
    if !tokens.comes(Sign::LeftParenthesis) {
        return Ok(Exps::from_vec(Vec::new(alloc)));
    }
    tokens.skip(Sign::LeftParenthesis)?;
    if tokens.comes(Sign::RightParenthesis) {
        tokens.skip(Sign::RightParenthesis)?;
        return Ok(Exps::from_vec(Vec::new(alloc)));
    }
    let exps = expressions(alloc, tokens)?;
    tokens.skip(Sign::RightParenthesis)?;
    Ok(exps)
}

/// Reads names in parentheses, which may be absent.
fn formal_params<T: TokenSource + Drop>(
    alloc: Global,
    tokens: &mut Tokens<T>,
) -> Result<Names, Stop>
    ensures { Gives result tokens.new (parameters_at name_at tokens.old) }
{
    if !tokens.comes(Sign::LeftParenthesis) {
        return Ok(Names::from_vec(Vec::new(alloc)));
    }
    tokens.skip(Sign::LeftParenthesis)?;
    if tokens.comes(Sign::RightParenthesis) {
        tokens.skip(Sign::RightParenthesis)?;
        return Ok(Names::from_vec(Vec::new(alloc)));
    }
    let names = names(alloc, tokens)?;
    tokens.skip(Sign::RightParenthesis)?;
    Ok(names)
}

/// Reads a gate's parameters and qubits.
pub fn formals<T: TokenSource + Drop>(
    alloc: Global,
    tokens: &mut Tokens<T>,
) -> Result<(Names, Names), Stop>
    ensures { Gives result tokens.new (formals_at tokens.old) }
{
    let params = formal_params(alloc, tokens)?;
    let qubits = names(alloc, tokens)?;
    Ok((params, qubits))
}
