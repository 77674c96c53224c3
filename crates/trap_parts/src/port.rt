//! What the joins of a trap file join.

ghost use Rattle.std.specs.Prelude.{◌≡◌};
ghost use Rattle.std.specs.List.{list_any, flat_map};
ghost use Rattle.trap_parts.specs.Joins.{same_end, link_of, ends_of, segment_end, segment_at};
ghost use Rattle.trap_parts.specs.Build.{same_port, is_taken};

use qc_base::End;

/// What the name of an end means. Parts go by their numbers in file order.
#[derive(Clone, Copy, Debug, PartialEq, Eq)]
pub enum Port {
    Zone(usize, End),
    Segment(usize, End),
    Junction(usize),
}

/// A join, whichever order it is written in.
#[derive(Clone, Copy, Debug, PartialEq, Eq)]
pub enum Link {
    /// A zone's end with a segment's end.
    Dock {
        zone: usize,
        zone_end: End,
        segment: usize,
        segment_end: End,
    },
    /// A segment's end with a junction.
    Arm {
        segment: usize,
        segment_end: End,
        junction: usize,
    },
}

/// An end of a slot, by the slot's place.
#[derive(Clone, Copy, Debug, PartialEq, Eq)]
pub struct SlotEnd {
    pub slot: u32,
    pub end: End,
}

/// Whether both are the same end.
pub fn same_end(end: End, other: End) -> bool
    ensures { result ≡ same_end end other }
{
    end == other
}

impl Port {
    // Whether both are the same.
    pub(crate) fn is(&self, other: &Port) -> bool
        ensures { result ≡ same_port self.now other.now }
    {
        match (self, other) {
            (Port::Zone(zone, e), Port::Zone(other, f)) => zone == other && same_end(*e, *f),
            (Port::Segment(segment, e), Port::Segment(other, f)) => segment == other
                && same_end(*e, *f),
            (Port::Junction(junction), Port::Junction(other)) => junction == other,
            _ => false,
        }
    }

    // The link between both, where they are of the right sorts.
    pub(crate) fn link(self, other: Port) -> Option<Link>
        ensures { result ≡ link_of self other }
    {
        match (self, other) {
            (Port::Zone(zone, zone_end), Port::Segment(segment, segment_end))
            | (Port::Segment(segment, segment_end), Port::Zone(zone, zone_end)) => Some(
                Link::Dock {
                    zone,
                    zone_end,
                    segment,
                    segment_end,
                },
            ),
            (Port::Segment(segment, segment_end), Port::Junction(junction))
            | (Port::Junction(junction), Port::Segment(segment, segment_end)) => Some(Link::Arm {
                segment,
                segment_end,
                junction,
            }),
            _ => None,
        }
    }
}

impl Link {
    // Whether it takes this end.
    pub(crate) fn takes(&self, end: &Port) -> bool
        ensures { result ≡ list_any (same_port end.now) (ends_of self.now) }
    {
        match self {
            Link::Dock {
                zone,
                zone_end,
                segment,
                segment_end,
            } => end.is(&Port::Zone(*zone, *zone_end))
                || end.is(&Port::Segment(*segment, *segment_end)),
            Link::Arm {
                segment,
                segment_end,
                ..
            } => end.is(&Port::Segment(*segment, *segment_end)),
        }
    }

    // Whether an end of it is joined before.
    pub(crate) fn is_taken(&self, before: &[Link]) -> bool
        ensures { result ≡ is_taken before.now self.now }
    {
        match self {
            Link::Dock {
                zone,
                zone_end,
                segment,
                segment_end,
            } => {
                is_joined(before, &Port::Zone(*zone, *zone_end))
                    || is_joined(before, &Port::Segment(*segment, *segment_end))
            }
            Link::Arm {
                segment,
                segment_end,
                ..
            } => is_joined(before, &Port::Segment(*segment, *segment_end)),
        }
    }

    /// The end of its segment.
    pub fn segment_end(&self) -> End
        ensures { result ≡ segment_end self.now }
    {
        match self {
            Link::Dock { segment_end, .. } | Link::Arm { segment_end, .. } => *segment_end,
        }
    }

    /// The segment that has an arm at the junction by this join.
    pub fn segment_at(&self, junction: usize) -> Option<usize>
        ensures { result ≡ segment_at junction self.now }
    {
        match self {
            Link::Arm {
                segment,
                junction: other,
                ..
            } if junction == *other => Some(*segment),
            _ => None,
        }
    }
}

// Whether one of the joins takes this end.
fn is_joined(links: &[Link], end: &Port) -> bool
    ensures { result ≡ list_any (same_port end.now) (flat_map ends_of links.now) }
{
    for link in links {
        if link.takes(end) {
            return true;
        }
    }
    false
}
