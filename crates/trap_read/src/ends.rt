//! The ends of a join.

ghost use Rattle.std.specs.Prelude.{◌≡◌, Ok, Err, IfOk};
ghost use Rattle.std.specs.Option.{option_map};
ghost use Rattle.trap_read.specs.Answers.{Gives, Fails};
ghost use Rattle.trap_read.specs.Keys.{row_view, under, ends_at, before, named, dotted, end_named, ends_in};

use crate::fault::TrapText;
use crate::row::Row;
use crate::texts::{is_texts, texts_in};
use qc_base::{End, Name, NoMemory};
use std::alloc::Global;
use trap_model::{EndName, JoinPart, is_name};

// What is before the suffix, where the text ends with it.
fn before<'a>(suffix: &[u8], text: &'a [u8]) -> Option<&'a [u8]>
    ensures { option_map (λ x. x.now) result ≡ before suffix.now text.now }
{
    text.strip_suffix(suffix)
}

// A name, where the bytes have the form of one, and an end.
fn named(alloc: Global, end: Option<End>, name: &[u8]) -> Result<Option<EndName>, NoMemory>
    ensures { IfOk result (λ found. found ≡ named end name.now) }
{
    if !is_name(name) {
        return Ok(None);
    }
    let name = Name::from_bytes(alloc, name)?;
    Ok(Some(EndName { name, end }))
}

// A name and an end, where the text has the end's suffix.
fn dotted(alloc: Global, end: End, suffix: &[u8], text: &[u8]) -> Result<Option<EndName>, NoMemory>
    ensures { IfOk result (λ found. found ≡ dotted end suffix.now text.now) }
{
    match before(suffix, text) {
        Some(name) => named(alloc, Some(end), name),
        None => Ok(None),
    }
}

// A name alone, or a name, a dot and `a` or `b`.
fn end_named(alloc: Global, text: &[u8]) -> Result<Option<EndName>, NoMemory>
    ensures { IfOk result (λ found. found ≡ end_named text.now) }
{
    if let Some(end) = named(alloc, None, text)? {
        return Ok(Some(end));
    }
    if let Some(end) = dotted(alloc, End::A, b".a", text)? {
        return Ok(Some(end));
    }
    dotted(alloc, End::B, b".b", text)
}

// The two ends of a join, where the texts are two ends.
fn ends_in(alloc: Global, texts: &[Name]) -> Result<Option<JoinPart>, NoMemory>
    ensures { IfOk result (λ found. found ≡ ends_in texts.now) }
{
    let [first, second] = texts else {
        return Ok(None);
    };
    let Some(first) = end_named(alloc, first.bytes())? else {
        return Ok(None);
    };
    let Some(second) = end_named(alloc, second.bytes())? else {
        return Ok(None);
    };
    Ok(Some(JoinPart { first, second }))
}

impl Row<'_> {
    /// The two ends under a key.
    pub(crate) fn ends(self, alloc: Global, key: &str) -> Result<JoinPart, TrapText>
        ensures { Gives (λ join. join) result (under (row_view self.entry) key.now ends_at) }
    {
        let Some(value) = self.get(key) else {
            return Err(TrapText::Missing {
                key: self.key(alloc, key)?,
            });
        };
        if !is_texts(value) {
            return Err(TrapText::Kind {
                key: self.key(alloc, key)?,
            });
        }
        let texts = texts_in(alloc, value)?;
        match ends_in(alloc, texts.items())? {
            Some(join) => Ok(join),
            None => Err(TrapText::Range {
                key: self.key(alloc, key)?,
            }),
        }
    }
}
