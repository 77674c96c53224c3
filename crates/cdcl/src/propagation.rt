//! Propagation over two watched literals a clause.

ghost use Rattle.std.specs.Prelude.{◌≡◌, ◌≢◌, ◌<◌, ◌≤◌, ◌^◌, Some, None, IfSome, IfNone, length};
ghost use Rattle.sat_base.specs.Literal.{Literal, negated};
ghost use Rattle.sat_base.specs.Clauses.{Has, EachVariable, NameOnly};
ghost use Rattle.derivation_log.specs.Log.{IsLine, clause_of};
ghost use Rattle.watch_lists.specs.Chains.{Follows};
ghost use Rattle.watch_lists.specs.Watched.{list_of};
ghost use Rattle.cdcl.specs.Clauses.{clauses_in};
ghost use Rattle.solver_trail.specs.Trail.{literals_of, IsClosed};
ghost use Rattle.cdcl.specs.Solver.{Propagates, IsFalsified};
ghost use Rattle.cdcl.specs.Watching.{kept_of, AreWatched, ShortAreTrue, IsFree, IsLooked, IsStepped, MovesLinks, AllHold, IsAmong, IsShort};

use crate::linked::other_link;
use crate::watching::Watching;
use derivation_log::{LineId, Log};
use sat_base::Lit;
use solver_trail::{Status, Values, status_of};

/// What a look at a line comes to.
#[derive(Clone, Copy, Debug)]
pub(crate) enum Looked {
    /// The other watched literal is true.
    Kept,
    /// This one may be watched.
    Moved(Lit),
    Falsified(LineId),
}

/// What a step to a link comes to.
#[derive(Clone, Copy, Debug)]
pub(crate) enum Stepped {
    Kept,
    Moved,
    Falsified(LineId),
}

// A literal of the clause, other than that one, that is not false.
fn free_literal(values: &Values, clause: &[Lit], except: Lit) -> Option<Lit>
    requires { EachVariable (λ var. var ≤ values.now.vars) clause.now }
    ensures some { IfSome result (IsFree (literals_of values.now.entries) clause.now except) }
    ensures none { IfNone result ((literal : Literal) → Has clause.now literal → literal ≢ except →
        Has (literals_of values.now.entries) (negated literal)) }
{
    for &literal in clause {
        if !values.is_true(literal.negated()) {
            if literal != except {
                return Some(literal);
            }
        }
    }
    None
}

// Looks at a line one of whose watched literals is false and the other one not true: that one is forced and added, or
// is false as all others; or another literal may be watched.
fn look(log: &Log, values: &mut Values, line: LineId, other: Lit) -> Looked
    requires named { NameOnly (λ var. var ≤ values.old.vars) (clauses_in log.now) }
    requires is_line { IsLine log.now line }
    requires has { Has (clause_of log.now line) other }
    requires not_true { Has (literals_of values.old.entries) other → ⊥ }
    ensures propagates { Propagates log.now values.old values.new }
    ensures comes { IsLooked log.now line other values.old values.new result }
{
    if let Some(to) = free_literal(values, log.clause(line), other) {
        return Looked::Moved(to);
    }
    if values.is_true(other.negated()) {
        return Looked::Falsified(line);
    }
    values.assign(other, Some(line));
    Looked::Kept
}

// Looks at the clause of a link in the list of a false literal, and moves the link where another literal may be
// watched.
fn step(
    log: &Log,
    values: &mut Values,
    watching: &mut Watching,
    falsified: Lit,
    before: Option<u64>,
    link: u64,
) -> Stepped
    requires named { NameOnly (λ var. var ≤ values.old.vars) (clauses_in log.now) }
    requires watched { AreWatched log.now values.old (kept_of watching.old) }
    requires falsified { Has (literals_of values.old.entries) (negated falsified) }
    requires follows { Follows before link (list_of watching.old.linked.watched falsified) }
    ensures propagates { Propagates log.now values.old values.new }
    ensures watched { AreWatched log.now values.new (kept_of watching.new) }
    ensures rest { MovesLinks watching.old watching.new }
    ensures comes { IsStepped watching.old watching.new link falsified log.now values.new result }
{
    watching.linked.tied();
    let _order = values.entries();
    let other = watching.linked.literal(other_link(link));
    if values.has_true(other) {
        return Stepped::Kept;
    }
    let Some(line) = watching.lines[(link / 2) as usize] else {
        return Stepped::Kept;
    };
    match look(log, values, line, other) {
        Looked::Kept => Stepped::Kept,
        Looked::Falsified(line) => Stepped::Falsified(line),
        Looked::Moved(to) => {
            let _var = to.var();
            watching.linked.relink(falsified, before, link, to);
            Stepped::Moved
        }
    }
}

// Goes through the list of a false literal.
fn walk(log: &Log, values: &mut Values, watching: &mut Watching, falsified: Lit) -> Option<LineId>
    requires named { NameOnly (λ var. var ≤ values.old.vars) (clauses_in log.now) }
    requires watched { AreWatched log.now values.old (kept_of watching.old) }
    requires falsified { Has (literals_of values.old.entries) (negated falsified) }
    ensures propagates { Propagates log.now values.old values.new }
    ensures watched { AreWatched log.now values.new (kept_of watching.new) }
    ensures rest { MovesLinks watching.old watching.new }
    ensures falsified { IfSome result (IsFalsified log.now values.new) }
    ensures hold { IfNone result (AllHold (kept_of watching.new) falsified (literals_of values.new.entries)) }
{
    let _order = values.entries();
    watching.linked.tied();
    let mut before = None;
    let mut next = watching.linked.first(falsified);
    while let Some(link) = next {
        watching.linked.tied();
        watching.visited = watching.visited.saturating_add(1);
        next = watching.linked.next(link);
        match step(log, values, watching, falsified, before, link) {
            Stepped::Kept => before = Some(link),
            Stepped::Moved => {}
            Stepped::Falsified(line) => return Some(line),
        }
    }
    None
}

// Goes through the lists of the literals that were not propagated yet.
fn propagate_rest(log: &Log, values: &mut Values, watching: &mut Watching) -> Option<LineId>
    requires named { NameOnly (λ var. var ≤ values.old.vars) (clauses_in log.now) }
    requires watched { AreWatched log.now values.old (kept_of watching.old) }
    ensures propagates { Propagates log.now values.old values.new }
    ensures watched { AreWatched log.now values.new (kept_of watching.new) }
    ensures short { watching.new.short ≡ watching.old.short }
    ensures falsified { IfSome result (IsFalsified log.now values.new) }
    ensures done { IfNone result (watching.new.done ≡ length values.new.entries) }
{
    while watching.done < values.entries().len() {
        let literal = values.entries()[watching.done].literal;
        if let Some(line) = walk(log, values, watching, literal.negated()) {
            return Some(line);
        }
        watching.done += 1;
    }
    None
}

// Adds what the lines of at most one literal force.
fn propagate_short(log: &Log, values: &mut Values, short: &[Option<LineId>]) -> Option<LineId>
    requires named { NameOnly (λ var. var ≤ values.old.vars) (clauses_in log.now) }
    requires short { (line : LineId) → IsAmong short.now line → IsShort log.now line }
    ensures propagates { Propagates log.now values.old values.new }
    ensures falsified { IfSome result (IsFalsified log.now values.new) }
    ensures short_true { IfNone result (ShortAreTrue (literals_of values.new.entries) log.now short.now) }
{
    for &slot in short {
        if let Some(line) = slot {
            match status_of(values, log.clause(line)) {
                Status::Closed => {}
                Status::Unit(literal) => values.assign(literal, Some(line)),
                Status::Falsified => return Some(line),
            }
        }
    }
    None
}

// At level 0 adds what the lines of at most one literal force. Above it they have true literals already.
fn propagate_base(log: &Log, values: &mut Values, short: &[Option<LineId>]) -> Option<LineId>
    requires named { NameOnly (λ var. var ≤ values.old.vars) (clauses_in log.now) }
    requires short { (line : LineId) → IsAmong short.now line → IsShort log.now line }
    requires base { 1 ≤ values.old.level → ShortAreTrue (literals_of values.old.entries) log.now short.now }
    ensures propagates { Propagates log.now values.old values.new }
    ensures falsified { IfSome result (IsFalsified log.now values.new) }
    ensures short_true { IfNone result (ShortAreTrue (literals_of values.new.entries) log.now short.now) }
{
    if values.level() == 0 {
        return propagate_short(log, values, short);
    }
    None
}

/// Adds what the lines force, until one is false or nothing is left to add.
pub(crate) fn propagate_all(
    log: &Log,
    values: &mut Values,
    watching: &mut Watching,
) -> Option<LineId>
    requires named { NameOnly (λ var. var ≤ values.old.vars) (clauses_in log.now) }
    requires watched { AreWatched log.now values.old (kept_of watching.old) }
    requires short { 1 ≤ values.old.level →
        ShortAreTrue (literals_of values.old.entries) log.now watching.old.short.items }
    ensures propagates { Propagates log.now values.old values.new }
    ensures watched { AreWatched log.now values.new (kept_of watching.new) }
    ensures falsified { IfSome result (λ line. IsFalsified log.now values.new line) }
    ensures closed { IfNone result (IsClosed (literals_of values.new.entries) (clauses_in log.now)) }
    ensures done { IfNone result (watching.new.done ≡ length values.new.entries) }
{
    if let Some(line) = propagate_base(log, values, &watching.short) {
        return Some(line);
    }
    let falsified = propagate_rest(log, values, watching);
    let _order = values.entries();
    falsified
}
