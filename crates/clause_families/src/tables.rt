//! What the families run over.

ghost use Rattle.std.specs.Prelude.{◌≡◌, ◌≤◌, IfOk, length};
ghost use Rattle.trap_parts.specs.Build.{IsTrap};
ghost use Rattle.trap_model.specs.Channels.{channels_of, AreWithin};
ghost use Rattle.step_vars.specs.Lists.{ions_of, places_of, zones_of, junctions_of, performed, numbered_channels};
ghost use Rattle.step_vars.specs.Encoding.{vars_of};
ghost use Rattle.clause_families.specs.Tables.{AreTables};

use crate::lists::{numbered, numbers_below, rows};
use qc_base::NoMemory;
use std::alloc::Global;
use step_rules::Setting;
use step_vars::{Cell, NumberedChannel, Vars};
use trap_model::{Channel, Trap};

/// The lists that the families of a setting run over.
#[derive(Drop)]
pub struct Tables<'a> {
    pub ions: Vec<u32>,
    pub places: Vec<u32>,
    pub zones: Vec<u32>,
    pub junctions: Vec<u32>,
    pub channels: Vec<NumberedChannel>,
    /// The operations that are no barrier.
    pub ops: Vec<u32>,
    /// Two ions each, the lower number first.
    pub pairs: &'a [Cell],
    /// Operations, each with a zone that is able to perform it.
    pub acts: &'a [Cell],
    /// Operations, each with one that has to be done before.
    pub orders: &'a [Cell],
}

// The ions.
fn ions(alloc: Global, setting: &Setting) -> Result<Vec<u32>, NoMemory>
    ensures { IfOk result (λ list. list.items ≡ ions_of setting.now) }
{
    numbers_below(alloc, setting.circuit.qubits())
}

// The places.
fn places(alloc: Global, setting: &Setting) -> Result<Vec<u32>, NoMemory>
    ensures { IfOk result (λ list. list.items ≡ places_of setting.now) }
{
    numbers_below(alloc, setting.trap.places())
}

// The zones.
fn zones(alloc: Global, setting: &Setting) -> Result<Vec<u32>, NoMemory>
    ensures { IfOk result (λ list. list.items ≡ zones_of setting.now) }
{
    numbers_below(alloc, setting.trap.zones().len() as u32)
}

// The junctions.
fn junctions(alloc: Global, setting: &Setting) -> Result<Vec<u32>, NoMemory>
    ensures { IfOk result (λ list. list.items ≡ junctions_of setting.now) }
{
    numbers_below(alloc, setting.trap.junctions().len() as u32)
}

// The channels of a trap.
fn channels_of(trap: &Trap) -> &[Channel]
    ensures channels { result.now ≡ channels_of trap.now }
    ensures few { length result.now ≤ 2048 }
    ensures within { AreWithin trap.now (channels_of trap.now) }
    ensures trap { IsTrap trap.now }
{
    trap.channels()
}

// The channels with their numbers.
fn channels(alloc: Global, setting: &Setting) -> Result<Vec<NumberedChannel>, NoMemory>
    ensures channels { IfOk result (λ list. list.items ≡ numbered_channels setting.now) }
    ensures within { AreWithin setting.now.trap (channels_of setting.now.trap) }
    ensures trap { IsTrap setting.now.trap }
{
    numbered(alloc, channels_of(setting.trap))
}

// The operations that are no barrier.
fn ops(alloc: Global, setting: &Setting, vars: &Vars) -> Result<Vec<u32>, NoMemory>
    requires { vars.now ≡ vars_of setting.now vars.now.encoding vars.now.steps }
    ensures { IfOk result (λ list. list.items ≡ performed setting.now.circuit) }
{
    rows(alloc, vars.ops())
}

impl<'a> Tables<'a> {
    /// The lists of a setting, of which its variables keep some. An `Err` is out of memory.
    pub fn new(alloc: Global, setting: &Setting, vars: &'a Vars) -> Result<Tables<'a>, NoMemory>
        requires { vars.now ≡ vars_of setting.now vars.now.encoding vars.now.steps }
        ensures { IfOk result (AreTables setting.now) }
    {
        let ions = ions(alloc, setting)?;
        let places = places(alloc, setting)?;
        let zones = zones(alloc, setting)?;
        let junctions = junctions(alloc, setting)?;
        let channels = channels(alloc, setting)?;
        let ops = ops(alloc, setting, vars)?;
        Ok(Tables {
            ions,
            places,
            zones,
            junctions,
            channels,
            ops,
            pairs: vars.pairs(),
            acts: vars.acts(),
            orders: vars.orders(),
        })
    }
}
