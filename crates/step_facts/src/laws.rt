//! What the parts of the encoding mean.

ghost use Rattle.std.specs.Prelude.{ℕ};
ghost use Rattle.step_rules.specs.Setting.{SettingValue};
ghost use Rattle.step_facts.specs.Run.{IsSetting};
ghost use Rattle.step_facts.specs.Theorems.{SchedulesHaveFacts, FactsSayUses, FactsAreSchedules};

/// Every schedule that plays has facts in which all families of clauses hold.
pub fn schedules_have_facts()
    ensures facts { (setting : SettingValue) (t : ℕ) → IsSetting setting → SchedulesHaveFacts setting t }
    ensures uses { (setting : SettingValue) → FactsSayUses setting }
{}

/// Facts in which all families of clauses hold are those of a schedule that plays.
pub fn facts_are_schedules()
    ensures { (setting : SettingValue) (t : ℕ) → IsSetting setting → FactsAreSchedules setting t }
{}
