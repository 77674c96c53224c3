//! The distances of all places to one of them.

ghost use Rattle.std.specs.Prelude.{◌≡◌, ◌<◌, IfOk};
ghost use Rattle.trap_model.specs.Trap.{place_count};
ghost use Rattle.route_find.specs.Distances.{AreDistances, reach_in, distance_at, next_at};

use crate::reach::Reach;
use crate::search::search;
use qc_base::{NoMemory, PlaceId};
use std::alloc::Global;
use std::marker::Model;
use trap_model::Trap;

/// The distances of all places of a trap to one of them, the target. Clauses see the target,
/// and what is known of each place.
#[derive(Debug, Drop)]
pub struct Distances {
    target: PlaceId,
    rows: Vec<Option<Reach>>,
}

impl Model for Distances {
    ghost use Rattle.route_find.specs.Distances.{DistancesValue};

    ghost Value = { DistancesValue };

    ghost view = { λ d. record { target = d.target.0; rows = d.rows.items } };
}

impl Distances {
    /// The distances to the target, by one search over the places and channels.
    pub fn to(alloc: Global, trap: &Trap, target: PlaceId) -> Result<Distances, NoMemory>
        requires { target.0 < place_count trap.now }
        ensures distances { IfOk result (λ distances. AreDistances trap.now distances) }
        ensures target { IfOk result (λ distances. distances.target ≡ target.0) }
    {
        let rows = search(alloc, trap.channels(), trap.places(), target.0)?;
        Ok(Distances { target, rows })
    }

    // What is known of a place.
    fn reach(&self, place: PlaceId) -> Option<Reach>
        ensures { result ≡ reach_in self.now.rows place.0 }
    {
        match self.rows.get(place.0 as usize) {
            Some(row) => *row,
            None => None,
        }
    }

    /// How many channels a shortest walk from the place to the target has, none where there is no walk.
    pub fn distance(&self, place: PlaceId) -> Option<u32>
        ensures { result ≡ distance_at self.now place.0 }
    {
        match self.reach(place) {
            Some(reach) => Some(reach.distance),
            None => None,
        }
    }

    /// The first channel of a shortest walk from the place to the target, none at the target or where there is no
    /// walk.
    pub fn next(&self, place: PlaceId) -> Option<u32>
        ensures { result ≡ next_at self.now place.0 }
    {
        match self.reach(place) {
            Some(reach) => reach.next,
            None => None,
        }
    }
}
