//! Chains side by side, one for each place.

ghost use Rattle.std.specs.Prelude.{◌≡◌, ◌≢◌, ◌≤◌, ◌<◌, ℕ, length, map};
ghost use Rattle.ion_chain.specs.ChainValue.{ions_of, room_of, row_at};

use crate::chain::Chain;
use qc_base::{End, PlaceId};

/// So many ions leave one place by an end and come into another by an end.
#[derive(Clone, Copy, Debug, PartialEq, Eq)]
pub struct Transfer {
    pub from: PlaceId,
    pub from_end: End,
    pub to: PlaceId,
    pub to_end: End,
    pub count: u32,
}

impl Transfer {
    ghost use Rattle.ion_chain.specs.Transfer.{after_transfer};

    /// Passes the ions between the chains of the two places.
    pub fn perform(self, chains: &mut Vec<Chain>)
        requires from { self.from.0 < length chains.old.items }
        requires to { self.to.0 < length chains.old.items }
        requires apart { self.from.0 ≢ self.to.0 }
        requires enough { self.count ≤ length (row_at chains.old.items self.from.0).ions }
        requires spare { self.count ≤ (row_at chains.old.items self.to.0).spare }
        ensures ions { map ions_of chains.new.items ≡ after_transfer (map ions_of chains.old.items) self }
        ensures room { map room_of chains.new.items ≡ map room_of chains.old.items }
        ensures elsewhere { (place : ℕ) → place ≢ self.from.0 → place ≢ self.to.0
            → row_at chains.new.items place ≡ row_at chains.old.items place }
    {
        let from = self.from.0 as usize;
        let to = self.to.0 as usize;
        let mut source = chains[from].lift();
        source.pass(self.from_end, self.count, &mut chains[to], self.to_end);
        chains[from] = source;
    }
}
