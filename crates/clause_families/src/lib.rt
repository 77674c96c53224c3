//! The families of clauses of the encoding, each by a call that adds its clauses of claims at the end, the
//! lists that they run over, and the clauses of literals that are made of them.
#![tactic(auto)]

mod bounds;
mod by_channel;
mod by_pair;
mod by_place;
mod clauses;
mod emit;
mod items;
mod lists;
mod tables;

pub use bounds::{add_few_ions, add_one_activities, add_one_crossings, add_one_places};
pub use by_channel::{
    IonRule, Times, TwoIonRule, add_chains, add_ions_at_channels, add_passers,
    add_two_ions_at_channels,
};
pub use by_pair::{PairRule, add_pairs_at_places};
pub use by_place::{PlaceChannels, add_ions_at_places, channels_from, channels_into};
pub use clauses::Clauses;
pub use emit::{push_bounds, push_clauses};
pub use items::{act, at, done, ord};
pub use lists::{channels_where, ions_for, rows, zone_count, zones_for};
pub use tables::Tables;
