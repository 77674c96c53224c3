//! Levels by number.

ghost use Rattle.std.specs.Prelude.{◌≡◌, ℕ, ◌<◌, [], length, slice_index, OnOk};
ghost use Rattle.compact.specs.Levels.{IsRaised};

use qc_base::NoMemory;
use std::alloc::Global;
use std::marker::Model;

/// For each number a level, which is 0 until it is raised. Clauses see the list of the levels that have an entry.
#[derive(Debug, Drop)]
pub(crate) struct Levels {
    levels: Vec<usize>,
}

impl Model for Levels {
    ghost use Rattle.std.specs.Prelude.{List, ℕ};

    ghost Value = { List ℕ };

    ghost view = { λ l. l.levels.items };
}

impl Levels {
    /// All levels are 0.
    pub fn new(alloc: Global) -> Levels
        ensures { result ≡ [] }
    {
        Levels {
            levels: Vec::new(alloc),
        }
    }

    /// The level of a number.
    pub fn of(&self, number: usize) -> usize
        ensures { result ≡ slice_index self.now number }
    {
        if number < self.levels.len() {
            self.levels[number]
        } else {
            0
        }
    }

    // Makes an entry for each number up to that one.
    fn reach(&mut self, number: usize) -> Result<(), NoMemory>
        ensures len { OnOk result (number < length self.new) }
        ensures same { OnOk result ((other : ℕ) → slice_index self.new other ≡ slice_index self.old other) }
    {
        'fill: while self.levels.len() <= number {
            self.levels.push(0)?;
        }
        Ok(())
    }

    /// Raises the level of a number to at least that.
    pub fn raise(&mut self, number: usize, level: usize) -> Result<(), NoMemory>
        ensures { OnOk result (IsRaised self.old self.new number level) }
    {
        self.reach(number)?;
        self.levels[number] = self.levels[number].max(level);
        Ok(())
    }
}
