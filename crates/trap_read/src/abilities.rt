//! The abilities of a zone.

ghost use Rattle.std.specs.Prelude.{◌≡◌, Ok, Err};
ghost use Rattle.std.specs.List.{list_any};
ghost use Rattle.std.specs.Str.{bytes_eq};
ghost use Rattle.trap_read.specs.Answers.{Gives, Fails};
ghost use Rattle.trap_read.specs.Keys.{row_view, under, can_at, is_listed, is_ability, are_abilities, abilities};

use crate::fault::TrapText;
use crate::row::Row;
use crate::texts::{is_texts, texts_in};
use qc_base::Name;
use std::alloc::Global;

/// What a zone is able to do.
#[derive(Clone, Copy, Debug, PartialEq, Eq)]
pub(crate) struct Abilities {
    pub(crate) one: bool,
    pub(crate) two: bool,
    pub(crate) read: bool,
}

// Whether the word is among the words.
fn is_listed(word: &[u8], words: &[Name]) -> bool
    ensures { result ≡ is_listed word.now words.now }
{
    for other in words {
        if word == other.bytes() {
            return true;
        }
    }
    false
}

fn is_ability(word: &[u8]) -> bool
    ensures { result ≡ is_ability word.now }
{
    word == b"one".as_slice() || word == b"two".as_slice() || word == b"read".as_slice()
}

// Whether each is an ability, and none occurs twice. What follows a word is looked through at most four times.
fn are_abilities(words: &[Name]) -> bool
    ensures { result ≡ are_abilities words.now }
{
    for (k, word) in words.iter().enumerate() {
        if !is_ability(word.bytes()) || is_listed(word.bytes(), &words[k + 1..]) {
            return false;
        }
    }
    true
}

impl Abilities {
    fn of(words: &[Name]) -> Abilities
        ensures { result ≡ abilities words.now }
    {
        Abilities {
            one: is_listed(b"one", words),
            two: is_listed(b"two", words),
            read: is_listed(b"read", words),
        }
    }
}

impl Row<'_> {
    /// The abilities under a key. Without the key there are none.
    pub(crate) fn abilities(self, alloc: Global, key: &str) -> Result<Abilities, TrapText>
        ensures { Gives (λ can. can) result (under (row_view self.entry) key.now can_at) }
    {
        let Some(value) = self.get(key) else {
            return Ok(Abilities::of(&[]));
        };
        if !is_texts(value) {
            return Err(TrapText::Kind {
                key: self.key(alloc, key)?,
            });
        }
        let words = texts_in(alloc, value)?;
        if !are_abilities(words.items()) {
            return Err(TrapText::Range {
                key: self.key(alloc, key)?,
            });
        }
        Ok(Abilities::of(words.items()))
    }
}
