//! What the definitions say of all schedules.

ghost use Rattle.std.specs.Prelude.{◌≡◌, List};
ghost use Rattle.step_rules.specs.declared.action.Action.{Action};
ghost use Rattle.step_rules.specs.Setting.{SettingValue};
ghost use Rattle.step_rules.specs.Play.{Plays};
ghost use Rattle.schedule_play.specs.declared.fault.PlayFault.{PlayFault};
ghost use Rattle.schedule_play.specs.Faults.{IsFault, IsJudged};

/// A schedule plays or has a first fault; it has at most one, and one that plays has none.
pub fn one_verdict()
    ensures one { (setting : SettingValue) (steps : List (List Action)) (a b : PlayFault)
        → IsFault setting steps a → IsFault setting steps b → a ≡ b }
    ensures not_both { (setting : SettingValue) (steps : List (List Action)) (fault : PlayFault)
        → IsFault setting steps fault → Plays setting steps → ⊥ }
    ensures some { (setting : SettingValue) (steps : List (List Action)) → IsJudged setting steps }
{}
