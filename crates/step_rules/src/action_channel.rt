//! The channel that the ions of an action go through.

ghost use Rattle.std.specs.Prelude.{◌≡◌, ◌<◌, IfSome};
ghost use Rattle.trap_model.specs.Channels.{channel_at};
ghost use Rattle.trap_parts.specs.Build.{IsTrap};
ghost use Rattle.step_rules.specs.ActionChannel.{channel_for, transfer, IsWithin};

use crate::action::Action;
use ion_chain::Transfer;
use trap_model::{Channel, Trap};

// The channel of a number.
fn numbered(trap: &Trap, number: Option<u32>) -> Option<Channel>
    ensures channel { result ≡ channel_at trap.now number }
    ensures within { IfSome result (IsWithin trap.now) }
    ensures trap { IsTrap trap.now }
{
    let channels = trap.channels();
    match number {
        Some(k) => channels.get(k as usize).copied(),
        None => None,
    }
}

// The channel; a swap and an operation have none.
pub(crate) fn channel_for(trap: &Trap, action: &Action) -> Option<Channel>
    ensures channel { result ≡ channel_for trap.now action.now }
    ensures within { IfSome result (IsWithin trap.now) }
    ensures trap { IsTrap trap.now }
{
    match action {
        Action::Split { zone, end, .. } => numbered(trap, trap.split_at(*zone, *end)),
        Action::Move { from, to } => numbered(trap, trap.move_of(*from, *to)),
        Action::Cross { junction, from, to } => {
            numbered(trap, trap.cross_of(*junction, *from, *to))
        }
        Action::Merge { zone, end } => numbered(trap, trap.merge_at(*zone, *end)),
        Action::Swap { .. } | Action::Op { .. } => numbered(trap, None),
    }
}

// So many ions go through the channel.
pub(crate) fn transfer(channel: Channel, count: u32) -> Transfer
    ensures { result ≡ transfer channel count }
{
    Transfer {
        from: channel.from,
        from_end: channel.from_end,
        to: channel.to,
        to_end: channel.to_end,
        count,
    }
}
