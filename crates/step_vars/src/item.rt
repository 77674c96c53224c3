//! What the variables say, and claims of them.

ghost use Rattle.std.specs.Prelude.{◌≡◌};
ghost use Rattle.step_vars.specs.Numbering.{is_timely};
ghost use Rattle.step_vars.specs.Items.{time_of, is_of_time, so, not_so, denied};

use qc_base::{Ion, Items, OpId, PlaceId};

/// What a variable says. Step t leads from time t - 1 to time t.
#[derive(Clone, Copy, Debug, PartialEq, Eq)]
pub enum Item {
    /// The ion is at the place.
    At {
        ion: Ion,
        place: PlaceId,
        time: u32,
    },
    /// The first ion, which has the smaller number, is nearer to end a than the second.
    Ord {
        first: Ion,
        second: Ion,
        time: u32,
    },
    /// Ions pass through the channel.
    Use {
        channel: u32,
        step: u32,
    },
    /// The ion passes through the channel.
    Leave {
        ion: Ion,
        channel: u32,
        step: u32,
    },
    /// The two ions, of which the first has the smaller number, change places in the zone.
    Swap {
        first: Ion,
        second: Ion,
        zone: PlaceId,
        step: u32,
    },
    /// The zone performs the operation.
    Act {
        op: OpId,
        zone: PlaceId,
        step: u32,
    },
    /// The operation was performed.
    Done {
        op: OpId,
        time: u32,
    },
    /// All operations were performed.
    Goal {
        time: u32,
    },
}

impl Item {
    /// The time, or the step, that it speaks of.
    pub fn time(&self) -> u32
        ensures { result ≡ time_of self.now }
    {
        match self {
            Item::At { time, .. } | Item::Ord { time, .. } => *time,
            Item::Use { step, .. } | Item::Leave { step, .. } => *step,
            Item::Swap { step, .. } | Item::Act { step, .. } => *step,
            Item::Done { time, .. } | Item::Goal { time } => *time,
        }
    }

    /// Whether the parts have such items at its time: what happens in a step is in no part 0.
    pub fn is_timely(&self) -> bool
        ensures { result ≡ is_timely self.now }
    {
        self.is_of_time() || self.time() > 0
    }

    /// Whether it speaks of a time, and not of a step.
    pub fn is_of_time(&self) -> bool
        ensures { result ≡ is_of_time self.now }
    {
        match self {
            Item::At { .. } | Item::Ord { .. } | Item::Done { .. } | Item::Goal { .. } => true,
            Item::Use { .. } | Item::Leave { .. } | Item::Swap { .. } | Item::Act { .. } => false,
        }
    }
}

/// That an item holds, or that it does not.
#[derive(Clone, Copy, Debug, PartialEq, Eq)]
pub struct Claim {
    pub item: Item,
    pub positive: bool,
}

impl Claim {
    /// The item holds.
    pub fn so(item: Item) -> Claim
        ensures { result ≡ so item }
    {
        Claim {
            item,
            positive: true,
        }
    }

    /// The item does not hold.
    pub fn not_so(item: Item) -> Claim
        ensures { result ≡ not_so item }
    {
        Claim {
            item,
            positive: false,
        }
    }

    /// The opposite.
    pub fn denied(self) -> Claim
        ensures { result ≡ denied self }
    {
        Claim {
            item: self.item,
            positive: !self.positive,
        }
    }
}

/// That at most so many of some items hold.
#[derive(Debug, Drop)]
pub struct Bound {
    pub limit: u32,
    pub items: Items<Item>,
}
