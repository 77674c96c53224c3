//! What is said of the faults of a schedule.

ghost use Rattle.std.specs.Prelude.{◌≡◌, [], ◌∷◌, codes, decimal};
ghost use Rattle.run_answers.specs.ScheduleLines.{rule_word, play_said};

use crate::line::Line;
use schedule_play::PlayFault;
use step_rules::Rule;

/// The word for a rule.
fn rule_word(rule: Rule) -> &'static [u8]
    ensures { result.now ≡ rule_word rule }
{
    match rule {
        Rule::NoPlace => b"noplace",
        Rule::NoJoin => b"nojoin",
        Rule::Index => b"index",
        Rule::Load => b"load",
        Rule::Occupied => b"occupied",
        Rule::Empty => b"empty",
        Rule::Full => b"full",
        Rule::NotOp => b"notop",
        Rule::NotAble => b"notable",
        Rule::Absent => b"absent",
    }
}

/// The beginning of what is said of a step.
fn in_step<'a>(step: u64) -> Line<'a>
    ensures { result ≡ codes "step " ∷ decimal step ∷ [] }
{
    Line::start(b"step ").number(step)
}

/// A schedule that does not play.
pub fn play_line<'a>(fault: &PlayFault) -> Line<'a>
    ensures { result ≡ play_said fault.now }
{
    match *fault {
        PlayFault::Broken { step, action, rule } => in_step(step)
            .text(b" action ")
            .number(action)
            .text(b": ")
            .text(rule_word(rule)),
        PlayFault::Shared {
            step,
            first,
            second,
        } => in_step(step)
            .text(b" actions ")
            .number(first)
            .text(b" and ")
            .number(second)
            .text(b" share"),
        PlayFault::Early { step, op, needs } => in_step(step)
            .text(b" operation ")
            .number(op.0 as u64)
            .text(b" before ")
            .number(needs.0 as u64),
        PlayFault::Twice { step, op } => in_step(step)
            .text(b" operation ")
            .number(op.0 as u64)
            .text(b" twice"),
        PlayFault::Missing { op } => Line::start(b"operation ")
            .number(op.0 as u64)
            .text(b" missing"),
        PlayFault::NoMemory => Line::start(b"no memory"),
    }
}
