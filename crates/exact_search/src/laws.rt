//! What the definitions say of all logs.

ghost use Rattle.std.specs.Prelude.{ℕ, ◌+◌, ◌<◌, ◌^◌, List, [], length};
ghost use Rattle.sat_base.specs.Derivation.{Line};
ghost use Rattle.sat_base.specs.Certificate.{certificate_text, HaveForm};
ghost use Rattle.sat_base.specs.Fresh.{AreFresh};
ghost use Rattle.derivation_log.specs.Log.{Lines};
ghost use Rattle.derivation_log.specs.Printing.{first_lines};
ghost use Rattle.trap_parts.specs.Build.{IsTrap};
ghost use Rattle.step_rules.specs.Setting.{SettingValue};
ghost use Rattle.step_vars.specs.declared.encoding.Encoding.{Encoding as AnEncoding};
ghost use Rattle.step_vars.specs.declared.encoding.Encoding.TheVariants.{Counter};
ghost use Rattle.step_vars.specs.Encoding.{encoding_of, parts_of};
ghost use Rattle.step_vars.specs.Certifies.{vars_up_to, head_of, asked, Certifies};
ghost use Rattle.exact_search.specs.Found.{RefutesFewer};

/// The lines that refute that there are fewer steps are a certificate of that.
pub fn found_lines_certify()
    ensures { (setting : SettingValue) (steps : ℕ) (log : Lines) (axioms lines : ℕ) → steps < 2 ^ 32
        → RefutesFewer setting steps log axioms lines
        → Certifies setting
        (certificate_text (head_of Counter (asked steps)) axioms (first_lines log axioms lines)) steps }
{}

/// With v variables in the parts 0 to a bound, there are fewer than 3^v fresh lines.
pub fn fresh_lines_are_few()
    ensures { (setting : SettingValue) (encoding : AnEncoding) (bound : ℕ) (lines : List Line)
        → IsTrap setting.trap
        → HaveForm (vars_up_to setting encoding bound) (length (encoding_of setting encoding bound) + 1) lines
        → AreFresh (parts_of setting encoding) bound [] lines
        → length lines < 3 ^ vars_up_to setting encoding bound }
{}
