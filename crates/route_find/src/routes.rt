//! A shortest route from place to place.

ghost use Rattle.std.specs.Prelude.{◌≡◌, ◌<◌, [], Some, IsSome, IfOk};
ghost use Rattle.route_find.specs.Walks.{IsRoute, IsShortest};
ghost use Rattle.route_find.specs.Distances.{AreDistances, distance_at};

use crate::distances::Distances;
use qc_base::{Items, NoMemory, PlaceId};
use std::alloc::Global;
use trap_model::Trap;

/// The numbers of the channels of a walk in order. Clauses see the list.
pub type Route = Items<u32>;

// The walk that leads nearer to the target by each channel.
fn follow(
    alloc: Global,
    trap: &Trap,
    distances: &Distances,
    from: PlaceId,
) -> Result<Route, NoMemory>
    requires distances { AreDistances trap.now distances.now }
    requires reached { IsSome (distance_at distances.now from.0) }
    ensures { IfOk result (λ route. IsShortest trap.now from.0 distances.now.target route) }
{
    let mut route = Vec::new(alloc);
    let mut place = from;
    while let Some(number) = distances.next(place) {
        route.push(number)?;
        place = trap.channels()[number as usize].to;
    }
    Ok(Items::from_vec(route))
}

/// A shortest walk from the one place to the other, none where there is no walk.
pub fn route(
    alloc: Global,
    trap: &Trap,
    from: PlaceId,
    to: PlaceId,
) -> Result<Option<Route>, NoMemory>
    ensures route { IfOk result (λ route. IsRoute trap.now from.0 to.0 route) }
    ensures empty { IfOk result (λ route. from ≡ to → route ≡ Some []) }
{
    if from == to {
        return Ok(Some(Items::from_vec(Vec::new(alloc))));
    }
    if to.0 >= trap.places() {
        return Ok(None);
    }
    let distances = Distances::to(alloc, trap, to)?;
    if distances.distance(from).is_none() {
        return Ok(None);
    }
    let route = follow(alloc, trap, &distances, from)?;
    Ok(Some(route))
}
