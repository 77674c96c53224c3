//! How many actions there are of each kind.

ghost use Rattle.std.specs.Prelude.{◌≡◌};
ghost use Rattle.schedule_report.specs.Tables.{no_actions, with_action};

use step_rules::Action;

/// How many actions there are of each kind. A count stays at its type's end.
#[derive(Clone, Copy, Debug, PartialEq, Eq)]
pub struct Tally {
    pub splits: u64,
    pub moves: u64,
    pub crosses: u64,
    pub merges: u64,
    pub swaps: u64,
    pub ops: u64,
}

impl Tally {
    pub(crate) fn new() -> Tally
        ensures { result ≡ no_actions }
    {
        Tally {
            splits: 0,
            moves: 0,
            crosses: 0,
            merges: 0,
            swaps: 0,
            ops: 0,
        }
    }

    /// Counts an action.
    pub(crate) fn add(&mut self, action: &Action)
        ensures { self.new ≡ with_action self.old action.now }
    {
        match action {
            Action::Split { .. } => self.splits = self.splits.saturating_add(1),
            Action::Move { .. } => self.moves = self.moves.saturating_add(1),
            Action::Cross { .. } => self.crosses = self.crosses.saturating_add(1),
            Action::Merge { .. } => self.merges = self.merges.saturating_add(1),
            Action::Swap { .. } => self.swaps = self.swaps.saturating_add(1),
            Action::Op { .. } => self.ops = self.ops.saturating_add(1),
        }
    }
}
