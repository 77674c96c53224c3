//! Operations and the items of bodies, read.

ghost use Rattle.std.specs.Prelude.{◌≡◌};
ghost use Rattle.qasm_read.specs.Reading.{Gives, universal_at, controlled_not_at, measure_at, reset_at, call_at, qop_in, qop_at, body_universal_at, body_controlled_not_at, body_barrier_at, body_call_at, body_item_at, body_at};
ghost use Rattle.qasm_read.specs.Expressions.{exp_at};

use crate::body_item::{BodyItem, BodyItems};
use crate::forms::{actuals, argument, arguments, names, some_actuals};
use crate::qop::Qop;
use crate::stop::Stop;
use crate::tokens::Tokens;
use qasm_tokens::{Keyword, Sign, Token, TokenSource};
use qc_base::Name;
use std::alloc::Global;

/// Reads an operation after its first token.
pub fn operation_from<T: TokenSource + Drop>(
    alloc: Global,
    first: Token,
    tokens: &mut Tokens<T>,
) -> Result<Qop, Stop>
    ensures { Gives result tokens.new (qop_in exp_at first tokens.old) }
{
    match first {
        Token::Keyword(Keyword::U) => universal(alloc, tokens),
        Token::Keyword(Keyword::Cx) => controlled_not(tokens),
        Token::Keyword(Keyword::Measure) => measure(tokens),
        Token::Keyword(Keyword::Reset) => reset(tokens),
        Token::Identifier(gate) => call(alloc, gate, tokens),
        _ => Err(Stop::OtherForm),
    }
}

/// Reads an operation.
pub fn operation<T: TokenSource + Drop>(alloc: Global, tokens: &mut Tokens<T>) -> Result<Qop, Stop>
    ensures { Gives result tokens.new (qop_at exp_at tokens.old) }
{
    let first = tokens.next()?;
    operation_from(alloc, first, tokens)
}

fn universal<T: TokenSource + Drop>(alloc: Global, tokens: &mut Tokens<T>) -> Result<Qop, Stop>
    ensures { Gives result tokens.new (universal_at exp_at tokens.old) }
{
    let params = some_actuals(alloc, tokens)?;
    let arg = argument(tokens)?;
    tokens.skip(Sign::Semicolon)?;
    Ok(Qop::U { params, arg })
}

fn controlled_not<T: TokenSource + Drop>(tokens: &mut Tokens<T>) -> Result<Qop, Stop>
    ensures { Gives result tokens.new (controlled_not_at tokens.old) }
{
    let control = argument(tokens)?;
    tokens.skip(Sign::Comma)?;
    let target = argument(tokens)?;
    tokens.skip(Sign::Semicolon)?;
    Ok(Qop::Cx { control, target })
}

fn measure<T: TokenSource + Drop>(tokens: &mut Tokens<T>) -> Result<Qop, Stop>
    ensures { Gives result tokens.new (measure_at tokens.old) }
{
    let source = argument(tokens)?;
    tokens.skip(Sign::Arrow)?;
    let target = argument(tokens)?;
    tokens.skip(Sign::Semicolon)?;
    Ok(Qop::Measure { source, target })
}

fn reset<T: TokenSource + Drop>(tokens: &mut Tokens<T>) -> Result<Qop, Stop>
    ensures { Gives result tokens.new (reset_at tokens.old) }
{
    let arg = argument(tokens)?;
    tokens.skip(Sign::Semicolon)?;
    Ok(Qop::Reset { arg })
}

fn call<T: TokenSource + Drop>(
    alloc: Global,
    gate: Name,
    tokens: &mut Tokens<T>,
) -> Result<Qop, Stop>
    ensures { Gives result tokens.new (call_at exp_at gate tokens.old) }
{
    let params = actuals(alloc, tokens)?;
    let args = arguments(alloc, tokens)?;
    tokens.skip(Sign::Semicolon)?;
    Ok(Qop::Call { gate, params, args })
}

fn body_item<T: TokenSource + Drop>(alloc: Global, tokens: &mut Tokens<T>) -> Result<BodyItem, Stop>
    ensures { Gives result tokens.new (body_item_at exp_at tokens.old) }
{
    match tokens.next()? {
        Token::Keyword(Keyword::U) => body_universal(alloc, tokens),
        Token::Keyword(Keyword::Cx) => body_controlled_not(tokens),
        Token::Keyword(Keyword::Barrier) => body_barrier(alloc, tokens),
        Token::Identifier(gate) => body_call(alloc, gate, tokens),
        _ => Err(Stop::OtherForm),
    }
}

fn body_universal<T: TokenSource + Drop>(
    alloc: Global,
    tokens: &mut Tokens<T>,
) -> Result<BodyItem, Stop>
    ensures { Gives result tokens.new (body_universal_at exp_at tokens.old) }
{
    let params = some_actuals(alloc, tokens)?;
    let arg = tokens.name()?;
    tokens.skip(Sign::Semicolon)?;
    Ok(BodyItem::U { params, arg })
}

fn body_controlled_not<T: TokenSource + Drop>(tokens: &mut Tokens<T>) -> Result<BodyItem, Stop>
    ensures { Gives result tokens.new (body_controlled_not_at tokens.old) }
{
    let control = tokens.name()?;
    tokens.skip(Sign::Comma)?;
    let target = tokens.name()?;
    tokens.skip(Sign::Semicolon)?;
    Ok(BodyItem::Cx { control, target })
}

fn body_barrier<T: TokenSource + Drop>(
    alloc: Global,
    tokens: &mut Tokens<T>,
) -> Result<BodyItem, Stop>
    ensures { Gives result tokens.new (body_barrier_at tokens.old) }
{
    let args = names(alloc, tokens)?;
    tokens.skip(Sign::Semicolon)?;
    Ok(BodyItem::Barrier { args })
}

fn body_call<T: TokenSource + Drop>(
    alloc: Global,
    gate: Name,
    tokens: &mut Tokens<T>,
) -> Result<BodyItem, Stop>
    ensures { Gives result tokens.new (body_call_at exp_at gate tokens.old) }
{
    let params = actuals(alloc, tokens)?;
    let args = names(alloc, tokens)?;
    tokens.skip(Sign::Semicolon)?;
    Ok(BodyItem::Call { gate, params, args })
}

/// Reads the items of a body, up to its closing brace.
pub fn body<T: TokenSource + Drop>(alloc: Global, tokens: &mut Tokens<T>) -> Result<BodyItems, Stop>
    ensures { Gives result tokens.new (body_at exp_at tokens.old) }
{
    let mut items = Vec::new(alloc);
    while !tokens.comes(Sign::RightBrace) {
        items.push(body_item(alloc, tokens)?)?;
    }
    Ok(BodyItems::from_vec(items))
}
