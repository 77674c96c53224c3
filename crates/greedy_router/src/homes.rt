//! In which zone each ion is.

ghost use Rattle.std.specs.Prelude.{◌≡◌, ◌++◌, replicate, IfOk, OnOk, length};
ghost use Rattle.step_rules.specs.Placement.{IsPlacement, start_of, reading_order};
ghost use Rattle.greedy_router.specs.Places.{AreHomes};

use qc_base::{NoMemory, PlaceId};
use std::alloc::Global;
use step_rules::Setting;

// Adds a zone as the home of so many ions.
fn settle(homes: &mut Vec<PlaceId>, zone: PlaceId, count: usize) -> Result<(), NoMemory>
    ensures { OnOk result (homes.new.items ≡ homes.old.items ++ replicate count zone) }
{
    for _ion in 0..count {
        homes.push(zone)?;
    }
    Ok(())
}

/// For each ion the zone in which it is at the start.
pub(crate) fn homes(alloc: Global, setting: &Setting) -> Result<Vec<PlaceId>, NoMemory>
    requires { IsPlacement setting.now.trap setting.now.circuit setting.now.placement }
    ensures homes { IfOk result
        (λ homes. AreHomes setting.now.trap (start_of setting.now.trap setting.now.placement) homes.items) }
    ensures len { IfOk result (λ homes. length homes.items ≡ length (reading_order setting.now.placement)) }
{
    let mut homes = Vec::new(alloc);
    for zone in 0..setting.trap.zones().len() as u32 {
        let zone = PlaceId(zone);
        settle(&mut homes, zone, setting.placement.list(zone).len())?;
    }
    Ok(homes)
}
