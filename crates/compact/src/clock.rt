//! The steps of actions, one after another.

ghost use Rattle.std.specs.Prelude.{◌≡◌, ◌+◌, ◌<◌, ◌≤◌, ◌∷◌, [], ◌++◌, All, length, take, slice_get, Some, Contains, IfOk, OnOk};
ghost use Rattle.step_rules.specs.declared.action.Action.{Action as AnAction};
ghost use Rattle.step_rules.specs.Footprint.{spots as spots_of};
ghost use Rattle.compact.specs.Tightened.{IsSerial};
ghost use Rattle.compact.specs.Levels.{AreRaised, spot_level};
ghost use Rattle.compact.specs.Latest.{IsNextTime, AreTimes};
ghost use Rattle.compact.specs.Orders.{AreOrdered};
ghost use Rattle.compact.specs.Clock.{IsClock};

use crate::orders::Orders;
use crate::spots::Spots;
use circuit_core::Circuit;
use qc_base::NoMemory;
use std::alloc::Global;
use std::marker::Model;
use step_rules::{Action, Footprint, Setting, footprint};

/// After how many steps each place, each junction and each operation is done.
#[derive(Debug, Drop)]
pub(crate) struct Clock {
    spots: Spots,
    orders: Orders,
}

impl Model for Clock {
    ghost use Rattle.compact.specs.Clock.{ClockValue};

    ghost Value = { ClockValue };

    ghost view = { λ c. record { spots = c.spots; orders = c.orders } };
}

impl Clock {
    // Before the first of these actions.
    fn new(alloc: Global, setting: &Setting, actions: &[Action]) -> Result<Clock, NoMemory>
        requires { AreOrdered setting.now.circuit actions.now }
        ensures { IfOk result (IsClock setting.now actions.now []) }
    {
        let orders = Orders::new(alloc, setting.circuit, actions)?;
        Ok(Clock {
            spots: Spots::new(alloc),
            orders,
        })
    }

    // The places and junctions of a footprint are free only after so many steps.
    fn hold(&mut self, works: &Footprint, level: usize) -> Result<(), NoMemory>
        ensures spots { OnOk result
            (AreRaised (Contains (spots_of works.now)) (spot_level self.old.spots)
            (spot_level self.new.spots) level) }
        ensures orders { OnOk result (self.new.orders ≡ self.old.orders) }
    {
        self.spots.raise(works, level)?;
        Ok(())
    }

    // The step of the next action after those with these times, counted from 0: the first after all that conflict
    // with it.
    fn take(
        &mut self,
        setting: &Setting,
        actions: &[Action],
        times: &[usize],
    ) -> Result<usize, NoMemory>
        requires ordered { AreOrdered setting.now.circuit actions.now }
        requires next { length times.now < length actions.now }
        requires below { All (λ time. time < length times.now) times.now }
        requires clock { IsClock setting.now actions.now times.now self.old }
        ensures time { IfOk result (λ time. (action : AnAction) → slice_get actions.now (length times.now) ≡ Some action
            → IsNextTime setting.now (take (length times.now) actions.now) times.now action time) }
        ensures below { IfOk result (λ time. time ≤ length times.now) }
        ensures clock { IfOk result (λ time. IsClock setting.now actions.now (times.now ++ time ∷ []) self.new) }
    {
        let place = times.len();
        let count = place + 1;
        let action = &actions[place];
        let works = footprint(setting.trap, action);
        let free = self.spots.greatest(&works);
        let Action::Op { op, .. } = action else {
            let level = after(free, count);
            self.hold(&works, level)?;
            return Ok(free);
        };
        let ready = self.orders.ready(setting.circuit, *op);
        let time = ready.max(free);
        let end = after(time, count);
        self.spots.raise(&works, end)?;
        self.orders.note(setting.circuit, *op, count, end)?;
        Ok(time)
    }
}

// One more, where that is no more than so many.
fn after(time: usize, count: usize) -> usize
    requires { time < count }
    ensures { result ≡ time + 1 }
{
    time + 1
}

/// The step of each action, counted from 0: the first after all earlier ones that conflict with it.
pub(crate) fn times_of(
    alloc: Global,
    setting: &Setting,
    actions: &[Action],
) -> Result<Vec<usize>, NoMemory>
    requires { IsSerial setting.now actions.now }
    ensures { IfOk result (λ times. AreTimes setting.now actions.now times.items) }
{
    let mut clock = Clock::new(alloc, setting, actions)?;
    let mut times = Vec::new(alloc);
    'next: while times.len() < actions.len() {
        let known = times.as_slice();
        let time = clock.take(setting, actions, known)?;
        times.push(time)?;
    }
    Ok(times)
}
