//! Laws of the definitions that `run` is proved by.

ghost use Rattle.std.specs.Prelude.{◌≡◌, ℕ, ◌≤◌, ◌^◌, List, length, Option, Some, Result, Ok, IfSome};
ghost use Rattle.placement.specs.declared.rule.PlaceRule.{PlaceRule};
ghost use Rattle.step_rules.specs.declared.action.Action.{Action};
ghost use Rattle.step_rules.specs.Setting.{SettingValue};
ghost use Rattle.step_rules.specs.Play.{IsLeast};
ghost use Rattle.request_words.specs.Request.{Search, request_of, compile, check, verify, report};
ghost use Rattle.run_answers.specs.declared.answer.Answer.{Answer};
ghost use Rattle.run_stages.specs.Work.{Work, judged, reported, verified};
ghost use Rattle.run_stages.specs.Found.{Found};
ghost use Rattle.run_stages.specs.Prepare.{Prepares};
ghost use Rattle.program_run.specs.Run.{Devices, Runs, Writes};
ghost use Rattle.program_run.specs.Headline.{Compiled, FoundNone, SpentBudget};
ghost use Rattle.program_run.specs.RoundTrip.{IsFoundAgain, IsAccepted};

use schedule_text::small_schedules_have_short_texts;
use verify_core::{accepted_schedules_are_least, one_verification};

/// The headline: a compilation that answers Ok wrote the text of the placement of the rule and of a schedule that
/// plays from it, for the circuit and the trap of the files that were found. In exact mode no such schedule has fewer
/// steps, and what was put under the name of the certificate shows it.
pub fn an_ok_compilation_is_compiled()
    ensures { (words : List (List ℕ)) (circuit trap : List ℕ) (rule : PlaceRule)
        (exact : Option Search) (before now : Devices)
        → request_of words ≡ Some (compile circuit trap rule exact) → (run : Runs words before now Answer.Ok)
        → Compiled run.found rule exact before now }
{}

/// A search that finds no schedule says so only where none of at most `--max` steps plays from the placement, and what
/// was put under the name of the certificate refutes that one does; and that its budget is spent only where what was
/// put has as many lines, all good and fresh, and leaves a number of steps open.
pub fn a_search_without_a_schedule_shows_why()
    ensures none { (words : List (List ℕ)) (circuit trap : List ℕ) (rule : PlaceRule) (exact : Search) (most : ℕ)
        (before now : Devices) → request_of words ≡ Some (compile circuit trap rule (Some exact))
        → (run : Runs words before now (Answer.NoneWithin most)) → FoundNone run.found rule exact most before now }
    ensures budget { (words : List (List ℕ)) (circuit trap : List ℕ) (rule : PlaceRule) (exact : Search)
        (spent : ℕ) (before now : Devices) → request_of words ≡ Some (compile circuit trap rule (Some exact))
        → (run : Runs words before now (Answer.Budget spent))
        → SpentBudget run.found rule exact spent before now }
{}

/// Where a verification comes to work, its schedule has the fewest steps of all that play from its placement,
/// whoever wrote the certificate.
pub fn a_verified_schedule_is_least()
    ensures { (found : Found) (words : List (List ℕ)) (setting : SettingValue) (steps : List (List Action))
        → Prepares found words (Ok (verified setting steps)) → IsLeast setting steps }
{
    accepted_schedules_are_least();
}

/// Words and files come to one outcome.
pub fn one_outcome()
    ensures { (found : Found) (words : List (List ℕ)) (a b : Result Work Answer)
        → Prepares found words a → Prepares found words b → a ≡ b }
{
    one_verification();
}

/// A check of the text that a compilation wrote says that it is legal, and a report reports it, where the same
/// circuit and trap are found, and the text as the schedule.
pub fn a_compiled_schedule_is_legal()
    ensures checked { (found later : Found) (words check_words : List (List ℕ))
        (circuit trap circuit_again trap_again schedule : List ℕ) (rule : PlaceRule) (exact : Option Search)
        (before now : Devices) → request_of words ≡ Some (compile circuit trap rule exact)
        → request_of check_words ≡ Some (check circuit_again trap_again schedule)
        → (wrote : Writes found words Answer.Ok before now) → IsFoundAgain found later wrote.ending.text
        → length wrote.ending.text ≤ 2 ^ 30 → IsAccepted judged later check_words wrote.ending.text }
    ensures reported { (found later : Found) (words report_words : List (List ℕ))
        (circuit trap circuit_again trap_again schedule : List ℕ) (rule : PlaceRule) (exact : Option Search)
        (before now : Devices) → request_of words ≡ Some (compile circuit trap rule exact)
        → request_of report_words ≡ Some (report circuit_again trap_again schedule)
        → (wrote : Writes found words Answer.Ok before now) → IsFoundAgain found later wrote.ending.text
        → length wrote.ending.text ≤ 2 ^ 30 → IsAccepted reported later report_words wrote.ending.text }
{}

/// A verification accepts what a compilation in exact mode wrote and put, where the same circuit and trap are found,
/// the text as the schedule, and what was put as the certificate.
pub fn a_certified_schedule_is_verified()
    ensures { (found later : Found) (words verify_words : List (List ℕ))
        (circuit trap circuit_again trap_again schedule cert : List ℕ) (rule : PlaceRule) (exact : Search)
        (before now : Devices)
        → request_of words ≡ Some (compile circuit trap rule (Some exact))
        → request_of verify_words ≡ Some (verify circuit_again trap_again schedule cert)
        → (wrote : Writes found words Answer.Ok before now) → IsFoundAgain found later wrote.ending.text
        → later.certificate ≡ wrote.ending.put → IfSome wrote.ending.put (λ bytes. length bytes ≤ 2 ^ 50)
        → IsAccepted verified later verify_words wrote.ending.text }
{
    small_schedules_have_short_texts();
}
