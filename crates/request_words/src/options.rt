//! The options of a compilation.

ghost use Rattle.std.specs.Prelude.{◌≡◌};
ghost use Rattle.std.specs.Option.{option_map};
ghost use Rattle.request_words.specs.Request.{is_file_word as is_file, number_of, rule_of as rule, strip_prefix, with_rule, with_cert, with_max, with_budget, with_option, with_options, no_options, texts};
ghost use Rattle.request_words.specs.Seen.{options_of};

use placement::PlaceRule;
use qc_base::number_of;

/// The options that were given.
#[derive(Clone, Copy, Debug)]
pub struct Given<'a> {
    pub rule: Option<PlaceRule>,
    pub cert: Option<&'a str>,
    pub max: Option<u64>,
    pub budget: Option<u64>,
}

impl<'a> Given<'a> {
    ghost use Rattle.std.specs.Option.{option_map};
    ghost use Rattle.request_words.specs.Seen.{options_of};

    /// No options.
    pub fn none() -> Given<'a>
        ensures { options_of result ≡ no_options }
    {
        Given {
            rule: None,
            cert: None,
            max: None,
            budget: None,
        }
    }

    fn with_rule(self, value: &str) -> Option<Given<'a>>
        ensures { option_map options_of result ≡ with_rule (options_of self.entry) value.now }
    {
        if self.rule.is_some() {
            return None;
        }
        let rule = Some(rule_of(value)?);
        Some(Given { rule, ..self })
    }

    fn with_cert(self, value: &'a str) -> Option<Given<'a>>
        ensures { option_map options_of result ≡ with_cert (options_of self.entry) value.now }
    {
        if self.cert.is_some() || !is_file_word(value) {
            return None;
        }
        let cert = Some(value);
        Some(Given { cert, ..self })
    }

    fn with_max(self, value: &str) -> Option<Given<'a>>
        ensures { option_map options_of result ≡ with_max (options_of self.entry) value.now }
    {
        if self.max.is_some() {
            return None;
        }
        let max = Some(number_in(value)?);
        Some(Given { max, ..self })
    }

    fn with_budget(self, value: &str) -> Option<Given<'a>>
        ensures { option_map options_of result ≡ with_budget (options_of self.entry) value.now }
    {
        if self.budget.is_some() {
            return None;
        }
        let budget = number_in(value)?;
        if budget < 1 {
            return None;
        }
        let budget = Some(budget);
        Some(Given { budget, ..self })
    }

    /// These options and one more.
    fn with_option(self, word: &'a str) -> Option<Given<'a>>
        ensures { option_map options_of result ≡ with_option (options_of self.entry) word.now }
    {
        if let Some(value) = value_of(word, "--place=") {
            return self.with_rule(value);
        }
        if let Some(value) = value_of(word, "--exact=") {
            return self.with_cert(value);
        }
        if let Some(value) = value_of(word, "--max=") {
            return self.with_max(value);
        }
        let value = value_of(word, "--budget=")?;
        self.with_budget(value)
    }
}

/// The options that words are, after those that were given, each at most once.
pub fn options_from<'a>(given: Given<'a>, words: &'a [String]) -> Option<Given<'a>>
    ensures { option_map options_of result ≡ with_options (options_of given.entry) (texts words.now) }
{
    let mut given = given;
    for word in words {
        match given.with_option(word.as_str()) {
            Some(more) => given = more,
            None => return None,
        }
    }
    Some(given)
}

/// Whether a word may name a file: it isn't empty and is no option.
pub fn is_file_word(word: &str) -> bool
    ensures { result ≡ is_file word.now }
{
    !word.is_empty() && !word.as_bytes().starts_with(b"--")
}

/// The number that a word is.
pub fn number_in(word: &str) -> Option<u64>
    ensures { result ≡ number_of word.now }
{
    number_of(word.as_bytes())
}

fn rule_of(word: &str) -> Option<PlaceRule>
    ensures { result ≡ rule word.now }
{
    if word == "declared" {
        Some(PlaceRule::Declared)
    } else if word == "first-use" {
        Some(PlaceRule::FirstUse)
    } else if word == "given" {
        Some(PlaceRule::Given)
    } else {
        None
    }
}

/// What comes after a text at the front of a word.
fn value_of<'a>(word: &'a str, front: &str) -> Option<&'a str>
    ensures { option_map (λ value. value.now) result ≡ strip_prefix front.now word.now }
{
    word.strip_prefix(front)
}
