//! Footprints.

ghost use Rattle.std.specs.Prelude.{◌≡◌};
ghost use Rattle.std.specs.List.{list_any};
ghost use Rattle.step_rules.specs.Steps.{place as place_spot, junction as junction_spot};
ghost use Rattle.step_rules.specs.Footprint.{spots, is_worked_on};

use qc_base::{JunctionId, PlaceId};

/// The places and the junction that an action works on.
#[derive(Clone, Copy, Debug, PartialEq, Eq)]
pub struct Footprint {
    pub first: PlaceId,
    pub second: Option<PlaceId>,
    pub junction: Option<JunctionId>,
}

impl Footprint {
    // Whether the place is among these.
    fn has_place(&self, place: PlaceId) -> bool
        ensures { result ≡ is_worked_on (spots self.now) (place_spot place.0) }
    {
        let second = match self.second {
            Some(second) => second.0 == place.0,
            None => false,
        };
        self.first.0 == place.0 || second
    }

    // Whether it has the junction.
    fn has_junction(&self, junction: JunctionId) -> bool
        ensures { result ≡ is_worked_on (spots self.now) (junction_spot junction.0) }
    {
        match self.junction {
            Some(other) => other.0 == junction.0,
            None => false,
        }
    }

    /// Whether both have a place or a junction in common. It takes no memory.
    pub fn meets(&self, other: &Footprint) -> bool
        ensures { result ≡ list_any (is_worked_on (spots other.now)) (spots self.now) }
    {
        let second = match self.second {
            Some(place) => other.has_place(place),
            None => false,
        };
        let junction = match self.junction {
            Some(junction) => other.has_junction(junction),
            None => false,
        };
        other.has_place(self.first) || (second || junction)
    }
}
