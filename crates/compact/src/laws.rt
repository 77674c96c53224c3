//! What holds of each rearrangement of a list of actions.

ghost use Rattle.std.specs.Prelude.{◌≡◌, ℕ, Bool, List, Contains, ◌↔◌};
ghost use Rattle.qc_base.specs.Counting.{how_many};
ghost use Rattle.step_rules.specs.declared.action.Action.{Action};
ghost use Rattle.step_rules.specs.Placement.{start_of};
ghost use Rattle.step_rules.specs.Setting.{SettingValue};
ghost use Rattle.step_rules.specs.Play.{AreLegal, Plays, one_at_a_time, actions_of};
ghost use Rattle.compact.specs.Tightened.{IsSerial, IsRearranged};

/// A rearrangement has as many actions of each kind as the list.
pub fn rearranged_steps_have_the_same_actions()
    ensures counts { (setting : SettingValue) (actions : List Action) (steps : List (List Action))
        (test : Action → Bool)
        → IsRearranged setting actions steps → how_many test (actions_of steps) ≡ how_many test actions }
    ensures members { (setting : SettingValue) (actions : List Action) (steps : List (List Action)) (action : Action)
        → IsRearranged setting actions steps → Contains (actions_of steps) action ↔ Contains actions action }
{}

/// A list that plays, one action a step, meets what a list to be tightened has to meet.
pub fn playing_lists_are_serial()
    ensures { (setting : SettingValue) (actions : List Action)
        → Plays setting (one_at_a_time actions) → IsSerial setting actions }
{}

/// Where the list plays, one action a step, each rearrangement with legal steps plays.
pub fn rearranged_steps_play()
    ensures { (setting : SettingValue) (actions : List Action) (steps : List (List Action))
        → Plays setting (one_at_a_time actions) → IsRearranged setting actions steps
        → AreLegal setting (start_of setting.trap setting.placement) steps → Plays setting steps }
{}
