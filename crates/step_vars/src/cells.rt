//! Some cells of a grid in reading order, each found by its row and column.

ghost use Rattle.std.specs.Prelude.{◌≡◌, ◌<◌, ◌≤◌, ◌^◌, [], ◌∷◌, ◌++◌, length, IfOk, OnOk, OnErr};
ghost use Rattle.step_vars.specs.Lists.{cell};
ghost use Rattle.step_vars.specs.Numbering.{rank};
ghost use Rattle.step_vars.specs.Tables.{AreBefore, HaveOwnPlaces};

use qc_base::NoMemory;
use std::alloc::Global;
use std::marker::Model;

/// A cell of a grid.
#[derive(Clone, Copy, Debug, PartialEq, Eq)]
pub struct Cell {
    pub row: u32,
    pub col: u32,
}

/// Some cells of a grid. Clauses see the size of the grid and the list of the cells.
#[derive(Debug, Drop)]
pub struct Cells {
    rows: u32,
    cols: u32,
    members: Vec<Cell>,
    // For each cell of the grid its place among the members.
    ranks: Vec<Option<u32>>,
}

impl Model for Cells {
    ghost use Rattle.step_vars.specs.Tables.{Grid, AreRanks};

    ghost Value = { Grid };

    ghost view = { λ c. record { rows = c.rows; cols = c.cols; members = c.members.items } };

    ghost invariant = { λ c. AreRanks c.rows c.cols c.members.items c.ranks.items };
}

impl Cells {
    /// No cell of a grid of that size.
    pub fn new(alloc: Global, rows: u32, cols: u32) -> Result<Cells, NoMemory>
        requires rows { rows ≤ 2 ^ 15 }
        requires cols { cols ≤ 2 ^ 15 }
        ensures { IfOk result (λ cells. cells ≡ record { rows = rows; cols = cols; members = [] }) }
    {
        let ranks = vec![in alloc; None; (rows * cols) as usize]?;
        Ok(Cells {
            rows,
            cols,
            members: Vec::new(alloc),
            ranks,
        })
    }

    /// Adds a cell that is after all members in reading order. After an `Err` nothing changed.
    pub fn push(&mut self, row: u32, col: u32) -> Result<(), NoMemory>
        requires row { row < self.old.rows }
        requires col { col < self.old.cols }
        requires new { AreBefore row col self.old.members }
        requires few { length self.old.members < 2 ^ 31 }
        ensures rows { self.new.rows ≡ self.old.rows }
        ensures cols { self.new.cols ≡ self.old.cols }
        ensures ok { OnOk result (self.new.members ≡ self.old.members ++ cell row col ∷ []) }
        ensures err { OnErr result (self.new.members ≡ self.old.members) }
    {
        let rank = self.members.len() as u32;
        let place = row as usize * self.cols as usize + col as usize;
        self.members.push(Cell { row, col })?;
        self.ranks[place] = Some(rank);
        Ok(())
    }

    /// The members in order.
    pub fn items(&self) -> &[Cell]
        ensures items { result.now ≡ self.now.members }
        ensures own { HaveOwnPlaces self.now.members }
    {
        self.members.as_slice()
    }

    /// The place of a cell among the members.
    pub fn rank(&self, row: u32, col: u32) -> Option<u32>
        ensures { result ≡ rank self.now.members row col }
    {
        if row >= self.rows {
            return None;
        }
        if col >= self.cols {
            return None;
        }
        self.ranks[row as usize * self.cols as usize + col as usize]
    }
}
