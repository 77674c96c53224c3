//! The names of the parts, and what they mean.

ghost use Rattle.std.specs.Prelude.{◌≡◌, ℕ, ◌+◌, ◌<◌, ◌≤◌, length, take, [], slice_index_or, Option};
ghost use Rattle.std.specs.Option.{option_map};
ghost use Rattle.std.specs.List.{list_any, list_all};
ghost use Rattle.std.specs.Str.{bytes_eq};
ghost use Rattle.trap_parts.specs.Names.{is_word as is_word_byte, begins_with_letter as begins, is_name as is_name_of};
ghost use Rattle.trap_parts.specs.Parts.{TrapValue, lists, names_of, junction_named};
ghost use Rattle.trap_parts.specs.Joins.{zone_named, segment_named, port_named};
ghost use Rattle.trap_parts.specs.Build.{first_double};

use crate::parts::{EndName, TrapParts};
use crate::port::Port;
use qc_base::Name;

// Whether it is a letter, a digit or `_`.
fn is_word(byte: u8) -> bool
    ensures { result ≡ is_word_byte byte }
{
    byte.is_ascii_alphabetic() || byte.is_ascii_digit() || byte == b'_'
}

fn are_words(bytes: &[u8]) -> bool
    ensures { result ≡ list_all is_word_byte bytes.now }
{
    bytes.iter().all(|byte| is_word(*byte))
}

fn begins_with_letter(bytes: &[u8]) -> bool
    ensures { result ≡ begins bytes.now }
{
    match bytes {
        [] => false,
        [first, ..] => first.is_ascii_alphabetic(),
    }
}

/// Whether the bytes have the form of a name: 1 to 16 letters, digits and `_`, and a letter first. It takes no
/// memory.
pub fn is_name(bytes: &[u8]) -> bool
    ensures { result ≡ is_name_of bytes.now }
{
    let short = bytes.len() <= 16;
    let words = are_words(bytes);
    begins_with_letter(bytes) && short && words
}

impl TrapParts {
    /// The zone of that name.
    pub fn zone_named(&self, name: &[u8]) -> Option<usize>
        ensures { result ≡ zone_named (lists self.now) name.now }
    {
        self.zones.iter().position(|zone| zone.name.bytes() == name)
    }

    /// The segment of that name.
    pub fn segment_named(&self, name: &[u8]) -> Option<usize>
        ensures { result ≡ segment_named (lists self.now) name.now }
    {
        self.segments
            .iter()
            .position(|segment| segment.name.bytes() == name)
    }

    /// The junction of that name.
    pub fn junction_named(&self, name: &[u8]) -> Option<usize>
        ensures { result ≡ junction_named (lists self.now) name.now }
    {
        self.junctions
            .iter()
            .position(|junction| junction.bytes() == name)
    }

    // What the name of an end means.
    pub(crate) fn port(&self, name: &EndName) -> Option<Port>
        ensures { result ≡ port_named (lists self.now) name.now.name name.now.end }
    {
        let bytes = name.name.bytes();
        let Some(end) = name.end else {
            return self.junction_named(bytes).map(Port::Junction);
        };
        match self.zone_named(bytes) {
            Some(zone) => Some(Port::Zone(zone, end)),
            None => Some(Port::Segment(self.segment_named(bytes)?, end)),
        }
    }

    // How many names there are.
    pub(crate) fn name_count(&self) -> usize
        requires { length (names_of (lists self.now)) ≤ 320 }
        ensures { result ≡ length (names_of (lists self.now)) }
    {
        self.zones.len() + self.segments.len() + self.junctions.len()
    }

    // A name, of the zones first, then of the segments, then of the junctions.
    pub(crate) fn name_at(&self, k: usize) -> &Name
        requires { k < length (names_of (lists self.now)) }
        ensures { result.now ≡ slice_index_or (names_of (lists self.now)) k result.now }
    {
        let zones = self.zones.len();
        if k < zones {
            return &self.zones[k].name;
        }
        let k = k - zones;
        let segments = self.segments.len();
        if k < segments {
            return &self.segments[k].name;
        }
        &self.junctions[k - segments]
    }

    // Whether the name is among the first so many.
    fn is_among(&self, count: usize, name: &Name) -> bool
        requires { count ≤ length (names_of (lists self.now)) }
        ensures { result ≡ list_any (bytes_eq name.now) (take count (names_of (lists self.now))) }
    {
        for k in 0..count {
            if name == self.name_at(k) {
                return true;
            }
        }
        false
    }

    // The first name that occurred before. There are a few hundred names at most.
    pub(crate) fn first_double(&self) -> Option<&Name>
        requires { length (names_of (lists self.now)) ≤ 320 }
        ensures { option_map (λ name. name.now) result ≡ first_double [] (names_of (lists self.now)) }
    {
        for k in 0..self.name_count() {
            let name = self.name_at(k);
            if self.is_among(k, name) {
                return Some(name);
            }
        }
        None
    }
}
