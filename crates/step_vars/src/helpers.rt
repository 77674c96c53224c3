//! How many helper variables a step has.

ghost use Rattle.std.specs.Prelude.{◌≡◌, ◌≤◌, ◌<◌, ◌*◌, ◌^◌, length, filter};
ghost use Rattle.trap_model.specs.Trap.{place_count};
ghost use Rattle.trap_model.specs.Channels.{channels_of, is_through};
ghost use Rattle.step_vars.specs.Lists.{able_ops, pairs_of, ion_count};
ghost use Rattle.step_vars.specs.Families.{one_places, few_ions_each, one_activity_each, one_crossing_each, activities_at};
ghost use Rattle.step_vars.specs.Encoding.{helper_count, step_helpers};

use crate::abilities::may_perform;
use crate::channel_test::ChannelTest;
use crate::encoding::Encoding;
use qc_base::{JunctionId, OpId, PlaceId};
use step_rules::Setting;
use trap_model::Trap;

// How many channels pass a junction.
fn crossing(trap: &Trap, junction: u32) -> u32
    ensures count { result ≡ length (filter (is_through junction) (channels_of trap.now)) }
    ensures few { result ≤ 2048 }
{
    ChannelTest::Through(JunctionId(junction)).count(trap.channels())
}

// How many operations a zone is able to perform.
fn able_ops(setting: &Setting, zone: PlaceId) -> u32
    requires zone { zone.0 < length setting.now.trap.zones }
    requires few { length setting.now.circuit.ops ≤ 200 }
    ensures count { result ≡ length (able_ops setting.now zone.0) }
    ensures few { result ≤ 200 }
{
    let all = setting.circuit.ops().len() as u32;
    let mut count = 0;
    for op in 0..all {
        if may_perform(setting, zone, OpId(op)) {
            count += 1;
        }
    }
    count
}

// How many things may happen at a place in a step.
fn activities(setting: &Setting, place: PlaceId, pairs: u32) -> u32
    requires ops { length setting.now.circuit.ops ≤ 200 }
    requires pairs { pairs ≡ length (pairs_of (ion_count setting.now)) }
    requires few_pairs { pairs ≤ 256 }
    ensures count { result ≡ length (activities_at setting.now 1 place.0) }
    ensures few { result ≤ 2504 }
{
    let passing = ChannelTest::Touching(place).count(setting.trap.channels());
    if (place.0 as usize) < setting.trap.zones().len() {
        passing + (pairs + able_ops(setting, place))
    } else {
        passing
    }
}

// The helpers of the lists of an ion's places.
fn of_ions(setting: &Setting, encoding: Encoding) -> u32
    requires ions { ion_count setting.now ≤ 16 }
    requires places { place_count setting.now.trap ≤ 48 }
    ensures count { result ≡ helper_count encoding (one_places setting.now 1) }
    ensures few { result ≤ 16 * 48 }
{
    let places = setting.trap.places();
    let mut count = 0;
    for ion in 0..setting.circuit.qubits() {
        count += encoding.fresh(places, 1);
    }
    count
}

// The helpers of the lists of a place's ions.
fn of_places(setting: &Setting, encoding: Encoding) -> u32
    requires ions { ion_count setting.now ≤ 16 }
    requires places { place_count setting.now.trap ≤ 48 }
    ensures count { result ≡ helper_count encoding (few_ions_each setting.now 1) }
    ensures few { result ≤ 48 * 256 }
{
    let ions = setting.circuit.qubits();
    let mut count = 0;
    for place in 0..setting.trap.places() {
        count += encoding.fresh(ions, setting.trap.limit(PlaceId(place)));
    }
    count
}

// The helpers of the lists of what happens at a place.
fn of_activities(setting: &Setting, pairs: u32, encoding: Encoding) -> u32
    requires places { place_count setting.now.trap ≤ 48 }
    requires ops { length setting.now.circuit.ops ≤ 200 }
    requires pairs { pairs ≡ length (pairs_of (ion_count setting.now)) }
    requires few_pairs { pairs ≤ 256 }
    ensures count { result ≡ helper_count encoding (one_activity_each setting.now 1) }
    ensures few { result ≤ 48 * 2504 }
{
    let mut count = 0;
    for place in 0..setting.trap.places() {
        count += encoding.fresh(activities(setting, PlaceId(place), pairs), 1);
    }
    count
}

// The helpers of the lists of a junction's crossings.
fn of_junctions(setting: &Setting, encoding: Encoding) -> u32
    ensures count { result ≡ helper_count encoding (one_crossing_each setting.now 1) }
    ensures few { result ≤ 32 * 2048 }
{
    let mut count = 0;
    for junction in 0..setting.trap.junctions().len() as u32 {
        count += encoding.fresh(crossing(setting.trap, junction), 1);
    }
    count
}

/// How many helpers a step has.
pub fn helpers(setting: &Setting, pairs: u32, encoding: Encoding) -> u32
    requires ions { ion_count setting.now ≤ 16 }
    requires places { place_count setting.now.trap ≤ 48 }
    requires ops { length setting.now.circuit.ops ≤ 200 }
    requires pairs { pairs ≡ length (pairs_of (ion_count setting.now)) }
    requires few_pairs { pairs ≤ 256 }
    ensures count { result ≡ step_helpers setting.now encoding }
    ensures few { result ≤ 2 ^ 18 }
{
    let places = of_ions(setting, encoding) + of_places(setting, encoding);
    let activities = of_activities(setting, pairs, encoding) + of_junctions(setting, encoding);
    places + activities
}
