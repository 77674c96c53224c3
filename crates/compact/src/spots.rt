//! Levels of the places and junctions of a trap.

ghost use Rattle.std.specs.Prelude.{◌≡◌, [], Contains, OnOk};
ghost use Rattle.step_rules.specs.Footprint.{spots as spots_of, place_spots, junction_spots};
ghost use Rattle.compact.specs.Levels.{IsGreatest, AreRaised, greatest_of, spot_level};

use crate::levels::Levels;
use qc_base::{JunctionId, NoMemory, PlaceId};
use std::alloc::Global;
use std::marker::Model;
use step_rules::Footprint;

/// For each place and each junction a level. Clauses see the two lists.
#[derive(Debug, Drop)]
pub(crate) struct Spots {
    places: Levels,
    junctions: Levels,
}

impl Model for Spots {
    ghost use Rattle.compact.specs.Levels.{SpotsValue};

    ghost Value = { SpotsValue };

    ghost view = { λ s. record { places = s.places; junctions = s.junctions } };
}

impl Spots {
    /// All levels are 0.
    pub fn new(alloc: Global) -> Spots
        ensures { result ≡ record { places = []; junctions = [] } }
    {
        Spots {
            places: Levels::new(alloc),
            junctions: Levels::new(alloc),
        }
    }

    // The level of a place, 0 where there is none.
    fn of_place(&self, place: Option<PlaceId>) -> usize
        ensures { result ≡ greatest_of (spot_level self.now) (place_spots place) }
    {
        match place {
            Some(place) => self.places.of(place.0 as usize),
            None => 0,
        }
    }

    // The level of a junction, 0 where there is none.
    fn of_junction(&self, junction: Option<JunctionId>) -> usize
        ensures { result ≡ greatest_of (spot_level self.now) (junction_spots junction) }
    {
        match junction {
            Some(junction) => self.junctions.of(junction.0 as usize),
            None => 0,
        }
    }

    /// The greatest level of the places and the junction of a footprint.
    pub fn greatest(&self, works: &Footprint) -> usize
        ensures { IsGreatest (Contains (spots_of works.now)) (spot_level self.now) result }
    {
        let first = self.places.of(works.first.0 as usize);
        let second = self.of_place(works.second);
        let junction = self.of_junction(works.junction);
        first.max(second).max(junction)
    }

    // Raises the level of a place, where there is one.
    fn raise_place(&mut self, place: Option<PlaceId>, level: usize) -> Result<(), NoMemory>
        ensures { OnOk result
            (AreRaised (Contains (place_spots place)) (spot_level self.old) (spot_level self.new) level) }
    {
        let Some(place) = place else {
            return Ok(());
        };
        self.places.raise(place.0 as usize, level)?;
        Ok(())
    }

    // Raises the level of a junction, where there is one.
    fn raise_junction(&mut self, junction: Option<JunctionId>, level: usize) -> Result<(), NoMemory>
        ensures { OnOk result
            (AreRaised (Contains (junction_spots junction)) (spot_level self.old)
            (spot_level self.new) level) }
    {
        let Some(junction) = junction else {
            return Ok(());
        };
        self.junctions.raise(junction.0 as usize, level)?;
        Ok(())
    }

    /// Raises the levels of the places and the junction of a footprint to at least that.
    pub fn raise(&mut self, works: &Footprint, level: usize) -> Result<(), NoMemory>
        ensures { OnOk result
            (AreRaised (Contains (spots_of works.now)) (spot_level self.old) (spot_level self.new) level) }
    {
        self.raise_place(Some(works.first), level)?;
        self.raise_place(works.second, level)?;
        self.raise_junction(works.junction, level)?;
        Ok(())
    }
}
