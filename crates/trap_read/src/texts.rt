//! Arrays of strings.

ghost use Rattle.std.specs.Prelude.{◌≡◌, ◌++◌, IfOk};
ghost use Rattle.toml.specs.View.{view, items_view};
ghost use Rattle.trap_read.specs.Keys.{all_items, is_string, is_texts, strings_of, texts_in};

use qc_base::{Name, NoMemory};
use std::alloc::Global;
use toml::Value;
use trap_model::Labels;

fn are_strings(values: &[Value]) -> bool
    ensures { result ≡ all_items is_string (items_view values.now) }
{
    for value in values {
        if !value.is_str() {
            return false;
        }
    }
    true
}

/// Whether it is an array of strings.
pub(crate) fn is_texts(value: &Value) -> bool
    ensures { result ≡ is_texts (view value.now) }
{
    match value.as_array() {
        Some(values) => are_strings(values.as_slice()),
        None => false,
    }
}

fn strings_of(alloc: Global, values: &[Value]) -> Result<Vec<Name>, NoMemory>
    ensures { IfOk result (λ texts. texts.items ≡ strings_of (items_view values.now)) }
{
    let mut texts = Vec::new(alloc);
    for value in values {
        if let Some(text) = value.as_str() {
            texts.push(Name::from_bytes(alloc, text.as_bytes())?)?;
        }
    }
    Ok(texts)
}

/// The strings of an array.
pub(crate) fn texts_in(alloc: Global, value: &Value) -> Result<Labels, NoMemory>
    ensures { IfOk result (λ texts. texts ≡ texts_in (view value.now)) }
{
    let texts = match value.as_array() {
        Some(values) => strings_of(alloc, values.as_slice())?,
        None => Vec::new(alloc),
    };
    Ok(Labels::from_vec(texts))
}
