//! What can happen in a step.

ghost use Rattle.std.specs.Prelude.{◌≡◌};
ghost use Rattle.step_facts.specs.Activities.{item_of};
ghost use Rattle.extract.specs.Reading.{seen};

use qc_base::{Ion, OpId, PlaceId};
use step_vars::Item;
use trap_model::Channel;

/// What can happen in a step.
#[derive(Clone, Copy, Debug, PartialEq, Eq)]
pub enum Activity {
    /// Ions pass through the channel of that number.
    Passage { number: u32, channel: Channel },
    /// Two ions, of which the first has the smaller number, change places in a zone.
    Exchange { first: u32, second: u32, zone: u32 },
    /// A zone performs an operation.
    Operation { op: u32, zone: u32 },
}

impl Activity {
    /// What says that it happens in that step.
    pub fn item(&self, step: u32) -> Item
        ensures { result ≡ item_of step (seen self.now) }
    {
        match *self {
            Activity::Passage { number, .. } => Item::Use {
                channel: number,
                step,
            },
            Activity::Exchange {
                first,
                second,
                zone,
            } => Item::Swap {
                first: Ion(first),
                second: Ion(second),
                zone: PlaceId(zone),
                step,
            },
            Activity::Operation { op, zone } => Item::Act {
                op: OpId(op),
                zone: PlaceId(zone),
                step,
            },
        }
    }
}
