//! What holds of the counts of all schedules.

ghost use Rattle.std.specs.Prelude.{◌≡◌, ℕ, ◌+◌, ◌<◌, ◌≤◌, ◌^◌, List, length, slice_get, Some};
ghost use Rattle.qc_base.specs.Counting.{how_many};
ghost use Rattle.step_rules.specs.declared.action.Action.{Action};
ghost use Rattle.step_rules.specs.Play.{actions_of};
ghost use Rattle.schedule_report.specs.Counts.{is_operation, counts_of, tally_of};
ghost use Rattle.schedule_report.specs.Report.{ops_in, most_ops};

/// Fewer than 2^64 actions are counted exactly.
pub fn few_actions_are_counted_exactly()
    ensures { (steps : List (List Action)) → length (actions_of steps) < 2 ^ 64
        → counts_of steps ≡ record {
          steps = length steps;
          actions = length (actions_of steps);
          ops = how_many is_operation (actions_of steps);
        } }
{}

/// Each action is of one kind.
pub fn kinds_make_up_the_actions()
    ensures { (actions : List Action) → length actions < 2 ^ 64 → let tally = tally_of actions in
        tally.splits + tally.moves + tally.crosses + tally.merges + tally.swaps + tally.ops ≡ length actions }
{}

/// No step performs more operations than the most.
pub fn no_step_performs_more()
    ensures { (steps : List (List Action)) (k : ℕ) (step : List Action)
        → slice_get steps k ≡ Some step → ops_in step ≤ most_ops steps }
{}
