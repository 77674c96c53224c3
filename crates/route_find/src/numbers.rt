//! The numbers of the channels that end at each place.

ghost use Rattle.std.specs.Prelude.{◌≡◌, ◌<◌, ◌≤◌, ◌^◌, ◌++◌, ◌∷◌, [], length, replicate, All, IfOk, OnOk};
ghost use Rattle.route_find.specs.Search.{AreBelow, AreEnds};

use qc_base::NoMemory;
use std::alloc::Global;
use std::marker::Model;
use trap_model::Channel;

/// A list of numbers. Clauses see the list.
#[derive(Debug, Drop)]
pub(crate) struct Numbers {
    items: Vec<u32>,
}

impl Model for Numbers {
    ghost use Rattle.std.specs.Prelude.{List, ℕ};

    ghost Value = { List ℕ };

    ghost view = { λ n. n.items.items };
}

impl Numbers {
    // No numbers.
    fn new(alloc: Global) -> Numbers
        ensures { result ≡ [] }
    {
        Numbers {
            items: Vec::new(alloc),
        }
    }

    // Adds a number at the end.
    fn push(&mut self, number: u32) -> Result<(), NoMemory>
        ensures { OnOk result (self.new ≡ self.old ++ number ∷ []) }
    {
        self.items.push(number)?;
        Ok(())
    }

    /// The numbers.
    pub(crate) fn items(&self) -> &[u32]
        ensures { result.now ≡ self.now }
    {
        self.items.as_slice()
    }
}

// An empty list for each place.
fn empty_lists(alloc: Global, places: u32) -> Result<Vec<Numbers>, NoMemory>
    ensures { IfOk result (λ lists. lists.items ≡ replicate places []) }
{
    let mut lists = Vec::new(alloc);
    for _place in 0..places {
        lists.push(Numbers::new(alloc))?;
    }
    Ok(lists)
}

/// For each place the numbers of the channels that end there, by one pass over the channels.
pub(crate) fn ends(
    alloc: Global,
    channels: &[Channel],
    places: u32,
) -> Result<Vec<Numbers>, NoMemory>
    requires below { AreBelow places channels.now }
    requires few { length channels.now < 2 ^ 32 }
    ensures { IfOk result (λ ends. AreEnds channels.now places (length channels.now) ends.items) }
{
    let mut ends = empty_lists(alloc, places)?;
    for (number, channel) in channels.iter().enumerate() {
        let row = &mut ends[channel.to.0 as usize];
        row.push(number as u32)?;
    }
    Ok(ends)
}
