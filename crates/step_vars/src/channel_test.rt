//! Tests of channels by where they lead.

ghost use Rattle.std.specs.Prelude.{◌≡◌, ◌≤◌, filter, length};
ghost use Rattle.step_vars.specs.ChannelTests.{passes};

use qc_base::{JunctionId, PlaceId};
use trap_model::{Channel, Kind};

/// A channel with its number.
#[derive(Clone, Copy, Debug, PartialEq, Eq)]
pub struct NumberedChannel {
    pub number: u32,
    pub channel: Channel,
}

/// What a channel is tested for.
#[derive(Clone, Copy, Debug, PartialEq, Eq)]
pub enum ChannelTest {
    /// It begins at the place.
    From(PlaceId),
    /// It ends at the place.
    Into(PlaceId),
    /// It begins or ends at the place.
    Touching(PlaceId),
    /// It passes the junction.
    Through(JunctionId),
    /// It begins at a slot, where there are so many zones.
    FromSlot(u32),
    /// It ends at a slot, where there are so many zones.
    IntoSlot(u32),
    /// It splits off from a zone.
    Splits,
    /// It merges into a zone.
    Merges,
}

impl ChannelTest {
    /// Whether a channel passes.
    pub fn passes(self, channel: &Channel) -> bool
        ensures { result ≡ passes self channel.now }
    {
        match self {
            ChannelTest::From(place) => channel.from.0 == place.0,
            ChannelTest::Into(place) => channel.to.0 == place.0,
            ChannelTest::Touching(place) => channel.from.0 == place.0 || channel.to.0 == place.0,
            ChannelTest::Through(junction) => match channel.junction {
                Some(other) => junction.0 == other.0,
                None => false,
            },
            ChannelTest::FromSlot(zones) => channel.from.0 >= zones,
            ChannelTest::IntoSlot(zones) => channel.to.0 >= zones,
            ChannelTest::Splits => channel.kind == Kind::Split,
            ChannelTest::Merges => channel.kind == Kind::Merge,
        }
    }

    /// How many of the channels pass.
    pub fn count(self, channels: &[Channel]) -> u32
        requires { length channels.now ≤ 2048 }
        ensures count { result ≡ length (filter (passes self) channels.now) }
        ensures few { result ≤ 2048 }
    {
        let mut count = 0;
        for channel in channels {
            if self.passes(channel) {
                count += 1;
            }
        }
        count
    }
}
