//! What the models of the encoding's clauses say, of all settings within the limits of exact mode.

ghost use Rattle.std.specs.Prelude.{ℕ};
ghost use Rattle.step_rules.specs.Setting.{SettingValue};
ghost use Rattle.step_vars.specs.declared.encoding.Encoding.{Encoding as AnEncoding};
ghost use Rattle.step_vars.specs.Encoding.{IsSmall};
ghost use Rattle.step_facts.specs.Run.{IsSetting};
ghost use Rattle.step_models.specs.Models.{EveryScheduleFits, EveryModelHasFacts, EveryModelIsASchedule, PartsNameTheirVariables, PartsAreSmall};

use at_most::encodings_limit;
use step_facts::{facts_are_schedules, schedules_have_facts};

/// Every schedule of at most t steps that plays has a model of the parts 0 to t.
pub fn every_schedule_fits()
    ensures { (setting : SettingValue) (encoding : AnEncoding) (t : ℕ)
        → IsSetting setting → IsSmall setting t → EveryScheduleFits setting encoding t }
{
    encodings_limit();
    schedules_have_facts();
}

/// Of every model of the parts 0 to t all families and bounds hold.
pub fn models_have_facts()
    ensures { (setting : SettingValue) (encoding : AnEncoding) (t : ℕ)
        → IsSetting setting → IsSmall setting t → EveryModelHasFacts setting encoding t }
{
    encodings_limit();
}

/// And the schedule of its facts plays.
pub fn models_are_schedules()
    ensures { (setting : SettingValue) (encoding : AnEncoding) (t : ℕ)
        → IsSetting setting → IsSmall setting t → EveryModelIsASchedule setting encoding t }
{
    models_have_facts();
    facts_are_schedules();
}

/// The parts 0 to t name their own variables alone.
pub fn parts_name_their_variables()
    ensures { (setting : SettingValue) (encoding : AnEncoding) (t : ℕ)
        → IsSetting setting → IsSmall setting t → PartsNameTheirVariables setting encoding t }
{
    encodings_limit();
}

/// Within the limits the parts 0 to t have fewer than 2^62 clauses, and fewer than 2^31 variables.
pub fn parts_are_small()
    ensures { (setting : SettingValue) (encoding : AnEncoding) (t : ℕ)
        → IsSetting setting → IsSmall setting t → PartsAreSmall setting encoding t }
{}
