//! How many variables of each kind a part has.

ghost use Rattle.std.specs.Prelude.{◌≡◌, ◌^◌, ◌<◌};
ghost use Rattle.step_vars.specs.Numbering.{ords_from, uses_from, leaves_from, swaps_from, acts_from, dones_from, helpers_from, goal_from, part_size, block_from};

use crate::item::Item;

/// How many variables of each kind a part has, besides its goal.
#[derive(Clone, Copy, Debug, PartialEq, Eq)]
pub struct Sizes {
    pub ats: u32,
    pub ords: u32,
    pub uses: u32,
    pub leaves: u32,
    pub swaps: u32,
    pub acts: u32,
    pub dones: u32,
    pub helpers: u32,
}

impl Sizes {
    /// Where the block of orders begins in the part.
    pub fn ords_from(&self) -> u32
        requires { goal_from self.now < 2 ^ 31 }
        ensures { result ≡ ords_from self.now }
    {
        self.ats
    }

    /// Where the block of used channels begins.
    pub fn uses_from(&self) -> u32
        requires { goal_from self.now < 2 ^ 31 }
        ensures { result ≡ uses_from self.now }
    {
        self.ords_from() + self.ords
    }

    /// Where the block of ions that leave begins.
    pub fn leaves_from(&self) -> u32
        requires { goal_from self.now < 2 ^ 31 }
        ensures { result ≡ leaves_from self.now }
    {
        self.uses_from() + self.uses
    }

    /// Where the block of swaps begins.
    pub fn swaps_from(&self) -> u32
        requires { goal_from self.now < 2 ^ 31 }
        ensures { result ≡ swaps_from self.now }
    {
        self.leaves_from() + self.leaves
    }

    /// Where the block of performed operations begins.
    pub fn acts_from(&self) -> u32
        requires { goal_from self.now < 2 ^ 31 }
        ensures { result ≡ acts_from self.now }
    {
        self.swaps_from() + self.swaps
    }

    /// Where the block of operations that are done begins.
    pub fn dones_from(&self) -> u32
        requires { goal_from self.now < 2 ^ 31 }
        ensures { result ≡ dones_from self.now }
    {
        self.acts_from() + self.acts
    }

    /// Where the helpers begin.
    pub fn helpers_from(&self) -> u32
        requires { goal_from self.now < 2 ^ 31 }
        ensures { result ≡ helpers_from self.now }
    {
        self.dones_from() + self.dones
    }

    /// Where the goal is.
    pub fn goal_from(&self) -> u32
        requires { goal_from self.now < 2 ^ 31 }
        ensures { result ≡ goal_from self.now }
    {
        self.helpers_from() + self.helpers
    }

    /// How many variables the part has.
    pub fn size(&self) -> u32
        requires { goal_from self.now < 2 ^ 31 }
        ensures { result ≡ part_size self.now }
    {
        self.goal_from() + 1
    }

    /// Where an item's block begins.
    pub fn block_from(&self, item: &Item) -> u32
        requires { goal_from self.now < 2 ^ 31 }
        ensures { result ≡ block_from self.now item.now }
    {
        match item {
            Item::At { .. } => 0,
            Item::Ord { .. } => self.ords_from(),
            Item::Use { .. } => self.uses_from(),
            Item::Leave { .. } => self.leaves_from(),
            Item::Swap { .. } => self.swaps_from(),
            Item::Act { .. } => self.acts_from(),
            Item::Done { .. } => self.dones_from(),
            Item::Goal { .. } => self.goal_from(),
        }
    }
}
