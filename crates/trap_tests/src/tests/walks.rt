//! Routes and distances in a trap of three zones, two of which a segment joins.

use qc_base::PlaceId;
use route_find::{Distances, route};
use samples::{ALL, zones_at_a_slot};
use std::alloc::Global;
use std::test::Fail;
use trap_model::Trap;

// Zone A by segment s, of one slot, to zone B, and zone C apart.
fn trap(alloc: Global) -> Result<Trap, Fail> {
    zones_at_a_slot(alloc, &[(4, &ALL), (4, &ALL), (4, &ALL)])
}

#[test]
fn a_segment_between_two_zones(rt: HostRuntime) -> Result<(), Fail> {
    let alloc = rt.alloc();
    let trap = trap(alloc)?;
    match route(alloc, &trap, PlaceId(0), PlaceId(1))? {
        Some(walk) => assert!(rt; walk.items() == [0, 3].as_slice()),
        None => panic!(rt; "no route"),
    }
    match route(alloc, &trap, PlaceId(1), PlaceId(0))? {
        Some(walk) => assert!(rt; walk.items() == [2, 1].as_slice()),
        None => panic!(rt; "no route"),
    }
    Ok(())
}

#[test]
fn zones_apart_and_equal_places(rt: HostRuntime) -> Result<(), Fail> {
    let alloc = rt.alloc();
    let trap = trap(alloc)?;
    for (from, to) in [(0, 2), (2, 1), (0, 4), (4, 0)] {
        let apart = route(alloc, &trap, PlaceId(from), PlaceId(to))?;
        assert!(rt; apart.is_none(), "from {from} to {to}");
    }
    for place in [0, 2, 3] {
        match route(alloc, &trap, PlaceId(place), PlaceId(place))? {
            Some(walk) => assert!(rt; walk.items().is_empty()),
            None => panic!(rt; "no route"),
        }
    }
    Ok(())
}

#[test]
fn distances_to_a_zone(rt: HostRuntime) -> Result<(), Fail> {
    let alloc = rt.alloc();
    let trap = trap(alloc)?;
    assert!(rt; trap.places() == 4);
    let distances = Distances::to(alloc, &trap, PlaceId(1))?;
    for (place, distance, next) in [
        (0, Some(2), Some(0)),
        (1, Some(0), None),
        (2, None, None),
        (3, Some(1), Some(3)),
    ] {
        assert!(rt;
            distances.distance(PlaceId(place)) == distance,
            "from {place}"
        );
        assert!(rt; distances.next(PlaceId(place)) == next, "from {place}");
    }
    Ok(())
}
