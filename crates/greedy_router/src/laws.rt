//! What holds of the answers about room of all settings.

ghost use Rattle.std.specs.Prelude.{◌≡◌, Result};
ghost use Rattle.step_rules.specs.Setting.{SettingValue};
ghost use Rattle.greedy_router.specs.declared.has_room.RoomFault.{RoomFault};
ghost use Rattle.greedy_router.specs.Room.{JudgesRoom};

/// A setting has one answer about room: room excludes every fault, and there is one first fault.
pub fn one_answer_about_room()
    ensures { (setting : SettingValue) (a b : Result (Unit {0}) RoomFault) → JudgesRoom setting a
        → JudgesRoom setting b → a ≡ b }
{}
