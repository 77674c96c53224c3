//! The tests that parts have to pass.

ghost use Rattle.std.specs.Prelude.{◌≡◌, ℕ, ◌+◌, ◌<◌, ◌≤◌, length, drop, [], ◌∷◌, IfOk};
ghost use Rattle.std.specs.List.{filter_map, list_any};
ghost use Rattle.trap_parts.specs.Parts.{TrapValue, lists, names_of, slot_count};
ghost use Rattle.trap_parts.specs.Build.{Gives, Fails, is_between, few, none_of, first_double, hold_ions, are_measured, join_of, joins_from, segments_at, all_differ, are_arms, are_armed, parts_pass, AreNames, build_of, IsTrap};
ghost use Rattle.trap_parts.specs.Joins.{links_of};

use crate::fault::{Counted, TrapFault};
use crate::parts::{JoinPart, SegmentPart, TrapParts};
use crate::port::Link;
use qc_base::NoMemory;
use std::alloc::Global;

fn is_between(low: u32, high: u32, number: u32) -> bool
    ensures { result ≡ is_between low high number }
{
    low <= number && number <= high
}

// No more of them than the limit.
fn judge_count(what: Counted, most: usize, count: usize) -> Result<(), TrapFault>
    ensures { Gives (λ x. x) result (few what most count) }
{
    if count <= most {
        Ok(())
    } else {
        Err(TrapFault::TooMany { what })
    }
}

impl TrapParts {
    /// What the joins of parts that make a trap join, in file order, or the first test that the parts fail.
    #[tactic(auto, unfolding(crate::specs::Build::build_of))]
    pub fn judge(&self, alloc: Global) -> Result<Vec<Link>, TrapFault>
        requires { AreNames (names_of (lists self.now)) }
        ensures judged { Gives (λ _. lists self.now) result (build_of (lists self.now)) }
        ensures trap { IfOk result (λ _. IsTrap (lists self.now)) }
        ensures links { IfOk result (λ links. links.items ≡ links_of (lists self.now)) }
    {
        self.judge_parts(alloc)?;
        let links = self.links(alloc)?;
        self.judge_junctions(alloc, links.as_slice())?;
        Ok(links)
    }

    // The tests of the parts by themselves, before those of the joins.
    #[tactic(auto, unfolding(crate::specs::Build::parts_pass))]
    fn judge_parts(&self, alloc: Global) -> Result<(), TrapFault>
        ensures { Gives (λ x. x) result (parts_pass (lists self.now)) }
    {
        if self.zones.is_empty() {
            return Err(TrapFault::NoZone);
        }
        judge_count(Counted::Zones, 32, self.zones.len())?;
        judge_count(Counted::Segments, 256, self.segments.len())?;
        judge_count(Counted::Junctions, 32, self.junctions.len())?;
        self.judge_names(alloc)?;
        self.judge_zones(alloc)?;
        self.judge_segments(alloc)?;
        judge_count(Counted::Slots, 256, self.slot_count())
    }

    // Each name occurs once.
    fn judge_names(&self, alloc: Global) -> Result<(), TrapFault>
        requires { length (names_of (lists self.now)) ≤ 320 }
        ensures { Gives (λ x. x) result
            (none_of TrapFault.Double (first_double [] (names_of (lists self.now)))) }
    {
        match self.first_double() {
            Some(name) => Err(TrapFault::Double {
                name: name.copy(alloc)?,
            }),
            None => Ok(()),
        }
    }

    // Each zone has room for 1 to 32 ions.
    fn judge_zones(&self, alloc: Global) -> Result<(), TrapFault>
        ensures { Gives (λ x. x) result (hold_ions self.now.zones.items) }
    {
        for zone in &self.zones {
            if !is_between(1, 32, zone.capacity) {
                return Err(TrapFault::Capacity {
                    zone: zone.name.copy(alloc)?,
                });
            }
        }
        Ok(())
    }

    // Each segment has 1 to 16 slots, and then a load of 1 to 16.
    fn judge_segments(&self, alloc: Global) -> Result<(), TrapFault>
        ensures { Gives (λ x. x) result (are_measured self.now.segments.items) }
    {
        for segment in &self.segments {
            judge_segment(alloc, segment)?;
        }
        Ok(())
    }

    // How many slots all segments have.
    fn slot_count(&self) -> usize
        requires { length self.now.segments.items ≤ 256 }
        ensures { result ≡ slot_count self.now.segments.items }
    {
        let mut count = 0;
        for segment in &self.segments {
            count += segment.slots as usize;
        }
        count
    }

    // The joins, which are judged row by row.
    #[tactic(auto, unfolding(crate::specs::Build::joins_from))]
    fn links(&self, alloc: Global) -> Result<Vec<Link>, TrapFault>
        ensures { Gives (λ links. links.items) result (joins_from (lists self.now) 1 [] self.now.joins.items) }
    {
        let mut links = Vec::new(alloc);
        for (k, join) in self.joins.iter().enumerate() {
            let link = self.link(k as u64 + 1, links.as_slice(), join)?;
            links.push(link)?;
        }
        Ok(links)
    }

    // The join of a row, after those before it.
    #[tactic(auto, unfolding(crate::specs::Build::join_of))]
    fn link(&self, row: u64, before: &[Link], join: &JoinPart) -> Result<Link, TrapFault>
        ensures { Gives (λ link. link) result (join_of (lists self.now) row before.now join.now) }
    {
        let Some(first) = self.port(&join.first) else {
            return Err(TrapFault::Unknown { row });
        };
        let Some(second) = self.port(&join.second) else {
            return Err(TrapFault::Unknown { row });
        };
        let Some(link) = first.link(second) else {
            return Err(TrapFault::Pair { row });
        };
        if link.is_taken(before) {
            return Err(TrapFault::EndTaken { row });
        }
        Ok(link)
    }

    // Each junction has 2 to 4 arms, and at most one end of each segment.
    fn judge_junctions(&self, alloc: Global, links: &[Link]) -> Result<(), TrapFault>
        ensures { Gives (λ x. x) result (are_armed links.now 0 self.now.junctions.items) }
    {
        for (k, name) in self.junctions.iter().enumerate() {
            let segments = segments_at(alloc, k, links)?;
            if !are_arms(segments.as_slice()) {
                return Err(TrapFault::Arms {
                    junction: name.copy(alloc)?,
                });
            }
        }
        Ok(())
    }
}

// A segment's slots, and then its load.
fn judge_segment(alloc: Global, segment: &SegmentPart) -> Result<(), TrapFault>
    ensures { Gives (λ x. x) result (are_measured (segment.now ∷ [])) }
{
    if !is_between(1, 16, segment.slots) {
        return Err(TrapFault::Length {
            segment: segment.name.copy(alloc)?,
        });
    }
    if !is_between(1, 16, segment.load) {
        return Err(TrapFault::Load {
            segment: segment.name.copy(alloc)?,
        });
    }
    Ok(())
}

// The segments that have an end at a junction.
fn segments_at(alloc: Global, junction: usize, links: &[Link]) -> Result<Vec<usize>, NoMemory>
    ensures { IfOk result (λ segments. segments.items ≡ segments_at junction links.now) }
{
    let mut segments = Vec::new(alloc);
    for link in links {
        if let Some(segment) = link.segment_at(junction) {
            segments.push(segment)?;
        }
    }
    Ok(segments)
}

fn all_differ(numbers: &[usize]) -> bool
    ensures { result ≡ all_differ numbers.now }
{
    for (k, number) in numbers.iter().enumerate() {
        if numbers[k + 1..].contains(number) {
            return false;
        }
    }
    true
}

// 2 to 4 arms, and at most one end of each segment.
fn are_arms(segments: &[usize]) -> bool
    ensures { result ≡ are_arms segments.now }
{
    2 <= segments.len() && segments.len() <= 4 && all_differ(segments)
}
