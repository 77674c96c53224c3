//! The variables of an encoding and their numbers.

ghost use Rattle.std.specs.Prelude.{◌≡◌, ◌+◌, ◌≤◌, ◌<◌, ◌^◌, Some, IsSome, IfOk, IfSome};
ghost use Rattle.step_vars.specs.declared.item.Item.{Item as AnItem};
ghost use Rattle.step_rules.specs.Setting.{setting_of};
ghost use Rattle.step_vars.specs.Items.{time_of, swap_item};
ghost use Rattle.step_vars.specs.Numbering.{sizes_at, uses_from, acts_from, index_in_block, number_of, before, literal_of, first_helper};
ghost use Rattle.step_vars.specs.Tables.{IsSmallPart, AreFound};
ghost use Rattle.step_vars.specs.ItemOf.{item_in, item_at, position_at, transport_at, swap_at, operation_at, act_at, done_at, part_at, place_at};
ghost use Rattle.step_vars.specs.Encoding.{IsSmall, vars_of, number_in};

use crate::cells::{Cell, Cells};
use crate::encoding::Encoding;
use crate::helpers::helpers;
use crate::item::{Claim, Item};
use crate::sizes::Sizes;
use crate::tables::{acts, ops, orders, pairs};
use circuit_core::Circuit;
use qc_base::{Ion, NoMemory, OpId, PlaceId};
use sat_base::Lit;
use std::alloc::Global;
use std::marker::Model;
use step_rules::{Placement, Setting};
use trap_model::Trap;

/// The variables of an encoding up to a number of steps. Clauses see what their numbers depend on.
#[derive(Debug, Drop)]
pub struct Vars {
    ions: u32,
    places: u32,
    zones: u32,
    channels: u32,
    pairs: Cells,
    ops: Cells,
    acts: Cells,
    helpers: u32,
    orders: Vec<Cell>,
    encoding: Encoding,
    steps: u32,
}

impl Model for Vars {
    ghost use Rattle.std.specs.Prelude.{◌≤◌};
    ghost use Rattle.step_vars.specs.Tables.{IsBounded};
    ghost use Rattle.step_vars.specs.Encoding.{VarsValue};

    ghost Value = { VarsValue };

    ghost view = { λ v. record {
      numbering = record {
        ions = v.ions;
        places = v.places;
        zones = v.zones;
        channels = v.channels;
        pairs = v.pairs.members;
        ops = v.ops.members;
        acts = v.acts.members;
        helpers = v.helpers;
      };
      orders = v.orders.items;
      encoding = v.encoding;
      steps = v.steps;
    } };

    ghost invariant = { λ v. (v.steps ≤ 48) × IsBounded (record {
      ions = v.ions;
      places = v.places;
      zones = v.zones;
      channels = v.channels;
      pairs = v.pairs.members;
      ops = v.ops.members;
      acts = v.acts.members;
      helpers = v.helpers;
    }) };
}

impl Vars {
    /// The variables of a trap, a circuit and a placement.
    pub fn new(
        alloc: Global,
        trap: &Trap,
        circuit: &Circuit,
        placement: &Placement,
        steps: u32,
        encoding: Encoding,
    ) -> Result<Vars, NoMemory>
        requires { IsSmall (setting_of trap.now circuit.now placement.now) steps }
        ensures { IfOk result (λ vars. vars
            ≡ vars_of (setting_of trap.now circuit.now placement.now) encoding steps) }
    {
        let setting = Setting {
            trap,
            circuit,
            placement,
        };
        let ions = circuit.qubits();
        let zones = trap.zones().len() as u32;
        let channels = trap.channels().len() as u32;
        let pairs = pairs(alloc, ions)?;
        let ops = ops(alloc, circuit)?;
        let acts = acts(alloc, &setting)?;
        let orders = orders(alloc, circuit)?;
        let helpers = helpers(&setting, pairs.items().len() as u32, encoding);
        Ok(Vars {
            ions,
            places: trap.places(),
            zones,
            channels,
            pairs,
            ops,
            acts,
            helpers,
            orders,
            encoding,
            steps,
        })
    }

    // How many variables of each kind the part of that time has.
    fn sizes(&self, time: u32) -> Sizes
        ensures sizes { result ≡ sizes_at self.now.numbering time }
        ensures small { IsSmallPart result }
        ensures few { self.now.steps ≤ 48 }
        ensures own { AreFound self.now.numbering }
    {
        let pairs = self.pairs.items().len() as u32;
        let ops = self.ops.items().len() as u32;
        let acts = self.acts.items().len() as u32;
        if time == 0 {
            Sizes {
                ats: self.ions * self.places,
                ords: pairs,
                uses: 0,
                leaves: 0,
                swaps: 0,
                acts: 0,
                dones: ops,
                helpers: 0,
            }
        } else {
            Sizes {
                ats: self.ions * self.places,
                ords: pairs,
                uses: self.channels,
                leaves: self.ions * self.channels,
                swaps: pairs * self.zones,
                acts,
                dones: ops,
                helpers: self.helpers,
            }
        }
    }

    // How many variables the parts before that time have.
    fn before(&self, time: u32) -> u32
        requires { time ≤ self.now.steps + 1 }
        ensures before { result ≡ before self.now.numbering time }
        ensures small { result < 2 ^ 26 }
    {
        if time == 0 {
            0
        } else {
            self.sizes(0).size() + (time - 1) * self.sizes(1).size()
        }
    }

    /// How many variables the parts up to that time have.
    pub fn count(&self, time: u32) -> u32
        requires { time ≤ self.now.steps }
        ensures count { result ≡ before self.now.numbering (time + 1) }
        ensures small { result < 2 ^ 31 }
    {
        self.before(time) + self.sizes(time).size()
    }

    // The place of an item in its block.
    fn index(&self, item: &Item) -> Option<u32>
        ensures { result ≡ index_in_block self.now.numbering item.now }
    {
        match *item {
            Item::At { ion, place, .. } => {
                if ion.0 < self.ions && place.0 < self.places {
                    Some(ion.0 * self.places + place.0)
                } else {
                    None
                }
            }
            Item::Ord { first, second, .. } => self.pairs.rank(first.0, second.0),
            Item::Use { channel, .. } => {
                if channel < self.channels {
                    Some(channel)
                } else {
                    None
                }
            }
            Item::Leave { ion, channel, .. } => {
                if ion.0 < self.ions && channel < self.channels {
                    Some(ion.0 * self.channels + channel)
                } else {
                    None
                }
            }
            Item::Swap {
                first,
                second,
                zone,
                ..
            } => self.swap_index(first, second, zone),
            Item::Act { op, zone, .. } => self.acts.rank(op.0, zone.0),
            Item::Done { op, .. } => self.ops.rank(op.0, 0),
            Item::Goal { .. } => Some(0),
        }
    }

    // The place of a swap in its block.
    fn swap_index(&self, first: Ion, second: Ion, zone: PlaceId) -> Option<u32>
        ensures { result ≡ index_in_block self.now.numbering (swap_item first.0 second.0 zone.0 1) }
    {
        if zone.0 >= self.zones {
            return None;
        }
        match self.pairs.rank(first.0, second.0) {
            Some(rank) => Some(rank * self.zones + zone.0),
            None => None,
        }
    }

    /// The number of an item; none where the encoding does not have it.
    pub fn number(&self, item: &Item) -> Option<u32>
        ensures number { result ≡ number_in self.now item.now }
        ensures small { IfSome result (λ var. var < 2 ^ 31) }
        ensures from_1 { IfSome result (λ var. 1 ≤ var) }
        ensures within { IfSome result (λ var. var ≤ before self.now.numbering (time_of item.now + 1)) }
    {
        let time = item.time();
        if time > self.steps {
            return None;
        }
        if !item.is_timely() {
            return None;
        }
        match self.index(item) {
            Some(index) => {
                Some(self.before(time) + self.sizes(time).block_from(item) + index + 1)
            }
            None => None,
        }
    }

    /// The item of a number; none for a helper, and for a number that no variable has.
    pub fn item(&self, var: u32) -> Option<Item>
        ensures item { result ≡ item_in self.now var }
        ensures found { IfSome result (λ item. number_in self.now item ≡ Some var) }
        ensures only { (item : AnItem) → number_in self.now item ≡ Some var → result ≡ Some item }
    {
        let last = self.count(self.steps);
        if var == 0 {
            return None;
        }
        if var > last {
            return None;
        }
        self.item_at(self.part_at(var - 1), self.place_at(var - 1))
    }

    // The time of the part of the variable that has so many before it.
    fn part_at(&self, before: u32) -> u32
        requires { before < 2 ^ 31 }
        ensures { result ≡ part_at self.now.numbering before }
    {
        let first = self.sizes(0).size();
        if before < first {
            0
        } else {
            (before - first) / self.sizes(1).size() + 1
        }
    }

    // Its place in the part.
    fn place_at(&self, before: u32) -> u32
        ensures { result ≡ place_at self.now.numbering before }
    {
        let first = self.sizes(0).size();
        if before < first {
            before
        } else {
            (before - first) % self.sizes(1).size()
        }
    }

    // The item at a place of the part of that time.
    fn item_at(&self, time: u32, place: u32) -> Option<Item>
        ensures at { result ≡ item_at self.now.numbering (sizes_at self.now.numbering time) time place }
        ensures own { AreFound self.now.numbering }
    {
        let sizes = self.sizes(time);
        if place < sizes.uses_from() {
            self.position_at(time, place, sizes)
        } else if place < sizes.acts_from() {
            self.transport_at(time, place, sizes)
        } else {
            self.operation_at(time, place, sizes)
        }
    }

    // Where ions are, and their order.
    fn position_at(&self, time: u32, place: u32, sizes: Sizes) -> Option<Item>
        requires sizes { sizes ≡ sizes_at self.now.numbering time }
        requires small { IsSmallPart sizes }
        ensures { result ≡ position_at self.now.numbering sizes time place }
    {
        if place < sizes.ords_from() {
            Some(Item::At {
                ion: Ion(place / self.places),
                place: PlaceId(place % self.places),
                time,
            })
        } else {
            let pair = self
                .pairs
                .items()
                .get((place - sizes.ords_from()) as usize)?;
            Some(Item::Ord {
                first: Ion(pair.row),
                second: Ion(pair.col),
                time,
            })
        }
    }

    // Channels in use, ions that pass, and swaps.
    fn transport_at(&self, step: u32, place: u32, sizes: Sizes) -> Option<Item>
        requires sizes { sizes ≡ sizes_at self.now.numbering step }
        requires small { IsSmallPart sizes }
        requires from { uses_from sizes ≤ place }
        requires to { place < acts_from sizes }
        ensures { result ≡ transport_at self.now.numbering sizes step place }
    {
        if place < sizes.leaves_from() {
            Some(Item::Use {
                channel: place - sizes.uses_from(),
                step,
            })
        } else if place < sizes.swaps_from() {
            let index = place - sizes.leaves_from();
            Some(Item::Leave {
                ion: Ion(index / self.channels),
                channel: index % self.channels,
                step,
            })
        } else {
            self.swap_at(step, place - sizes.swaps_from())
        }
    }

    // The swap at an index of its block.
    fn swap_at(&self, step: u32, index: u32) -> Option<Item>
        requires { 0 < self.now.numbering.zones }
        ensures { result ≡ swap_at self.now.numbering step index }
    {
        let pair = self.pairs.items().get((index / self.zones) as usize)?;
        Some(Item::Swap {
            first: Ion(pair.row),
            second: Ion(pair.col),
            zone: PlaceId(index % self.zones),
            step,
        })
    }

    // Operations and the goal; a helper is no item.
    fn operation_at(&self, time: u32, place: u32, sizes: Sizes) -> Option<Item>
        requires small { IsSmallPart sizes }
        requires from { acts_from sizes ≤ place }
        ensures { result ≡ operation_at self.now.numbering sizes time place }
    {
        if place < sizes.dones_from() {
            self.act_at(time, place - sizes.acts_from())
        } else if place < sizes.helpers_from() {
            self.done_at(time, place - sizes.dones_from())
        } else if place < sizes.goal_from() {
            None
        } else {
            Some(Item::Goal { time })
        }
    }

    // The performed operation at an index of its block.
    fn act_at(&self, step: u32, index: u32) -> Option<Item>
        ensures { result ≡ act_at self.now.numbering step index }
    {
        let act = self.acts.items().get(index as usize)?;
        Some(Item::Act {
            op: OpId(act.row),
            zone: PlaceId(act.col),
            step,
        })
    }

    // The operation that is done at an index of its block.
    fn done_at(&self, time: u32, index: u32) -> Option<Item>
        ensures { result ≡ done_at self.now.numbering time index }
    {
        let op = self.ops.items().get(index as usize)?;
        Some(Item::Done {
            op: OpId(op.row),
            time,
        })
    }

    /// The literal of a claim.
    pub fn lit(&self, claim: &Claim) -> Lit
        requires time { time_of claim.now.item ≤ self.now.steps }
        requires there { IsSome (number_of self.now.numbering claim.now.item) }
        ensures { result ≡ literal_of self.now.numbering claim.now }
    {
        match self.number(&claim.item) {
            Some(var) => Lit::new(var, claim.positive),
            None => Lit::new(1, claim.positive),
        }
    }

    /// The number of the first helper of the part of that time.
    pub fn first_helper(&self, time: u32) -> u32
        requires { time ≤ self.now.steps }
        ensures first { result ≡ first_helper self.now.numbering time }
        ensures room { result + (sizes_at self.now.numbering time).helpers ≤ 2 ^ 31 }
    {
        self.before(time) + self.sizes(time).helpers_from() + 1
    }

    /// The pairs i < j of ions, in order.
    pub fn pairs(&self) -> &[Cell]
        ensures { result.now ≡ self.now.numbering.pairs }
    {
        self.pairs.items()
    }

    /// The operations that are no barrier, ascending, each with column 0.
    pub fn ops(&self) -> &[Cell]
        ensures { result.now ≡ self.now.numbering.ops }
    {
        self.ops.items()
    }

    /// Each operation with each zone that is able to perform it.
    pub fn acts(&self) -> &[Cell]
        ensures { result.now ≡ self.now.numbering.acts }
    {
        self.acts.items()
    }

    /// Each operation with each one that has to come before it.
    pub fn orders(&self) -> &[Cell]
        ensures { result.now ≡ self.now.orders }
    {
        self.orders.as_slice()
    }

    /// The encoding.
    pub fn encoding(&self) -> Encoding
        ensures { result ≡ self.now.encoding }
    {
        self.encoding
    }
}
