//! A table of a trap file, and what is under its keys.

ghost use Rattle.std.specs.Prelude.{◌≡◌, not, find, Ok, Err, IfOk};
ghost use Rattle.std.specs.Option.{option_map, ok_or};
ghost use Rattle.toml.specs.Data.{get_member};
ghost use Rattle.toml.specs.View.{view, table_view, items_view};
ghost use Rattle.trap_read.specs.Answers.{Gives, Fails};
ghost use Rattle.trap_read.specs.Keys.{row_view, key_of, under, has_key, keys_of, extra_key, only_known, name_at, number_at, all_items, is_table, rows_at, table_at};

use crate::fault::{KeyAt, Section, TrapText};
use qc_base::{Name, NoMemory};
use std::alloc::Global;
use toml::{Table, Value};
use trap_model::is_name;

/// A table of the file. Rows count from 1, and a table that is no row has the number 0.
#[derive(Clone, Copy)]
pub(crate) struct Row<'a> {
    pub(crate) section: Section,
    pub(crate) number: u32,
    pub(crate) table: &'a Table,
}

// Whether each value is a table.
fn are_tables(values: &[Value]) -> bool
    ensures { result ≡ all_items is_table (items_view values.now) }
{
    for value in values {
        if !value.is_table() {
            return false;
        }
    }
    true
}

impl<'a> Row<'a> {
    /// The value under a key.
    pub(crate) fn get(self, key: &str) -> Option<&'a Value>
        ensures { option_map (λ v. view v.now) result ≡ get_member key.now (row_view self.entry).members }
    {
        self.table.get(key)
    }

    /// The key with where it is.
    pub(crate) fn key(self, alloc: Global, key: &str) -> Result<KeyAt, NoMemory>
        ensures { IfOk result (λ k. k ≡ key_of (row_view self.entry) key.now) }
    {
        Ok(KeyAt {
            section: self.section,
            row: self.number,
            key: Name::from_bytes(alloc, key.as_bytes())?,
        })
    }

    // The least key that the section doesn't have.
    fn extra_key(self) -> Option<&'a str>
        ensures { option_map (λ k. k.now) result ≡ extra_key (row_view self.entry) }
    {
        for key in self.table.keys() {
            if !self.section.has_key(key.as_str()) {
                return Some(key.as_str());
            }
        }
        None
    }

    /// The table has known keys alone.
    #[tactic(auto, unfolding(crate::specs::Keys::only_known))]
    pub(crate) fn only_known(self, alloc: Global) -> Result<(), TrapText>
        ensures { Gives (λ x. x) result (only_known (row_view self.entry)) }
    {
        match self.extra_key() {
            None => Ok(()),
            Some(key) => Err(TrapText::Extra {
                key: self.key(alloc, key)?,
            }),
        }
    }

    /// The name under a key.
    pub(crate) fn name(self, alloc: Global, key: &str) -> Result<Name, TrapText>
        ensures { Gives (λ name. name) result (under (row_view self.entry) key.now name_at) }
    {
        let Some(value) = self.get(key) else {
            return Err(TrapText::Missing {
                key: self.key(alloc, key)?,
            });
        };
        match value.as_str() {
            None => Err(TrapText::Kind {
                key: self.key(alloc, key)?,
            }),
            Some(text) => {
                if is_name(text.as_bytes()) {
                    Ok(Name::from_bytes(alloc, text.as_bytes())?)
                } else {
                    Err(TrapText::Range {
                        key: self.key(alloc, key)?,
                    })
                }
            }
        }
    }

    /// The number under a key, from 0 to 65,535.
    pub(crate) fn number(self, alloc: Global, key: &str) -> Result<u32, TrapText>
        ensures { Gives (λ number. number) result (under (row_view self.entry) key.now number_at) }
    {
        let Some(value) = self.get(key) else {
            return Err(TrapText::Missing {
                key: self.key(alloc, key)?,
            });
        };
        match value.as_integer() {
            None => Err(TrapText::Kind {
                key: self.key(alloc, key)?,
            }),
            Some(number) => {
                if 0 <= number && number <= 65535 {
                    Ok(number as u32)
                } else {
                    Err(TrapText::Range {
                        key: self.key(alloc, key)?,
                    })
                }
            }
        }
    }

    /// The tables of the array under a key. Without the key there are none.
    pub(crate) fn rows(self, alloc: Global, key: &str) -> Result<&'a [Value], TrapText>
        ensures { Gives (λ rows. items_view rows.now) result (under (row_view self.entry) key.now rows_at) }
    {
        let Some(value) = self.get(key) else {
            return Ok(&[]);
        };
        let Some(values) = value.as_array() else {
            return Err(TrapText::Kind {
                key: self.key(alloc, key)?,
            });
        };
        if are_tables(values.as_slice()) {
            Ok(values.as_slice())
        } else {
            Err(TrapText::Kind {
                key: self.key(alloc, key)?,
            })
        }
    }

    /// The table under a key, where it has the key.
    pub(crate) fn table(self, alloc: Global, key: &str) -> Result<Option<&'a Table>, TrapText>
        ensures { Gives (option_map (λ table. table_view table.now)) result
            (under (row_view self.entry) key.now table_at) }
    {
        let Some(value) = self.get(key) else {
            return Ok(None);
        };
        match value.as_table() {
            Some(table) => Ok(Some(table)),
            None => Err(TrapText::Kind {
                key: self.key(alloc, key)?,
            }),
        }
    }
}
