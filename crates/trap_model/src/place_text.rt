//! How places and junctions are written.

ghost use Rattle.std.specs.Prelude.{◌≡◌, ◌≢◌, ℕ, ◌<◌, ◌++◌, take, length, MatchOption, OnOk, OnErr};
ghost use Rattle.std.specs.Option.{option_map};
ghost use Rattle.std.specs.Fmt.{decimal};
ghost use Rattle.trap_model.specs.Texts.{IsSlotText, IsNoSlotText};
ghost use Rattle.trap_parts.specs.Parts.{TrapValue, junction_named};
ghost use Rattle.trap_model.specs.Trap.{place_text, place_named};

use crate::trap::Trap;
use itoa::Buffer;
use qc_base::{JunctionId, NoMemory, PlaceId, split_once};

// The slot of a segment whose number is written so. A segment has few slots.
fn slot_written(text: &[u8], slots: u32) -> Option<u32>
    ensures { MatchOption result ((k : ℕ) → k < slots → decimal k ≢ text.now)
        (λ k. (k < slots) × (decimal k ≡ text.now)) }
{
    for k in 0..slots {
        let mut buffer = Buffer::new();
        if buffer.format(k).as_bytes() == text {
            return Some(k);
        }
    }
    None
}

impl Trap {
    /// The place that is written so.
    pub fn place_named(&self, text: &[u8]) -> Option<PlaceId>
        ensures { option_map (λ place. place.0) result ≡ place_named self.now text.now }
    {
        match self.parts.zone_named(text) {
            Some(zone) => Some(PlaceId(zone as u32)),
            None => self.slot_named(text),
        }
    }

    // The slot that is written so.
    fn slot_named(&self, text: &[u8]) -> Option<PlaceId>
        ensures { MatchOption result (IsNoSlotText self.now text.now)
            (λ place. IsSlotText self.now place.0 text.now) }
    {
        let _parts = &self.parts;
        let (name, number) = split_once(text, b'.')?;
        let segment = self.parts.segment_named(name)?;
        let index = slot_written(number, self.parts.segments[segment].slots)?;
        Some(PlaceId(self.firsts[segment] + index))
    }

    /// The junction of that name.
    pub fn junction_named(&self, text: &[u8]) -> Option<JunctionId>
        ensures { option_map (λ junction. junction.0) result ≡ junction_named self.now text.now }
    {
        let junction = self.parts.junction_named(text)?;
        Some(JunctionId(junction as u32))
    }

    /// Writes the place after what `out` has: a zone's name, or `s.k` for slot k of segment `s`.
    pub fn print_place(&self, place: PlaceId, out: &mut Vec<u8>) -> Result<(), NoMemory>
        ensures ok { OnOk result (out.new.items ≡ out.old.items ++ place_text self.now place.0) }
        ensures err { OnErr result (out.new.items ≡ out.old.items) }
    {
        let before = out.len();
        let result = self.push_place(place, out);
        if result.is_err() {
            out.truncate(before);
        }
        result
    }

    // Where memory runs out, a part may be written.
    fn push_place(&self, place: PlaceId, out: &mut Vec<u8>) -> Result<(), NoMemory>
        ensures ok { OnOk result (out.new.items ≡ out.old.items ++ place_text self.now place.0) }
        ensures err { OnErr result (take (length out.old.items) out.new.items ≡ out.old.items) }
    {
        let place = place.0 as usize;
        let zones = self.parts.zones.len();
        if place < zones {
            out.extend_from_slice(self.parts.zones[place].name.bytes())?;
            return Ok(());
        }
        if let Some(slot) = self.slots.get(place - zones) {
            out.extend_from_slice(self.parts.segments[slot.segment].name.bytes())?;
            out.extend_from_slice(b".")?;
            let mut buffer = Buffer::new();
            out.extend_from_slice(buffer.format(slot.index).as_bytes())?;
        }
        Ok(())
    }
}
