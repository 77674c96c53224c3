//! The actions so far.

ghost use Rattle.std.specs.Prelude.{◌≡◌, ◌<◌, ◌-◌, true, [], length, IfOk, OnOk};
ghost use Rattle.trap_model.specs.Trap.{limit_of};
ghost use Rattle.ion_chain.specs.Transfer.{list_at};
ghost use Rattle.step_rules.specs.Placement.{IsPlacement, start_of};
ghost use Rattle.step_rules.specs.Config.{IsConfigOf};
ghost use Rattle.step_rules.specs.Guards.{Passes};
ghost use Rattle.greedy_router.specs.Serial.{IsNext, IsSingle};

use qc_base::{Ion, NoMemory, OpId, PlaceId};
use std::alloc::Global;
use step_rules::{Action, Config, Setting};
use trap_model::Trap;

/// The actions so far, and where the ions are after them.
#[derive(Debug, Drop)]
pub(crate) struct Played {
    pub(crate) config: Config,
    pub(crate) actions: Vec<Action>,
}

impl Played {
    ghost use Rattle.greedy_router.specs.Traffic.{IsPlayed, MayTravel, carries, Acts, Performs};

    /// No action.
    pub(crate) fn start(alloc: Global, setting: &Setting) -> Result<Played, NoMemory>
        requires { IsPlacement setting.now.trap setting.now.circuit setting.now.placement }
        ensures played { IfOk result (IsPlayed setting.now) }
        ensures none { IfOk result (λ played. played.actions.items ≡ []) }
        ensures lists { IfOk result (λ played. played.config.lists ≡ start_of setting.now.trap setting.now.placement) }
    {
        Ok(Played {
            config: Config::start(alloc, setting.trap, setting.placement)?,
            actions: Vec::new(alloc),
        })
    }

    /// Moves ions by an action that passes its guards.
    pub(crate) fn act(&mut self, setting: &Setting, action: Action) -> Result<(), NoMemory>
        requires played { IsPlayed setting.now self.old }
        requires travels { MayTravel setting.now self.old.actions.items }
        requires carries { carries action ≡ true }
        requires single { IsSingle action }
        requires passes { Passes setting.now self.old.config.lists action }
        ensures { OnOk result (Acts setting.now self.old self.new action) }
    {
        self.actions.push(action)?;
        self.config.apply(setting.trap, &action);
        Ok(())
    }

    /// Performs the next operation.
    pub(crate) fn perform(
        &mut self,
        setting: &Setting,
        zone: PlaceId,
        op: OpId,
    ) -> Result<(), NoMemory>
        requires played { IsPlayed setting.now self.old }
        requires next { IsNext setting.now self.old.actions.items zone.0 op.0 }
        ensures { OnOk result (Performs setting.now self.old self.new op) }
    {
        self.actions.push(Action::Op { zone, op })?;
        Ok(())
    }

    /// The ions of a place.
    pub(crate) fn list(&self, place: PlaceId) -> &[Ion]
        requires { place.0 < length self.now.config.lists }
        ensures { result.now ≡ list_at self.now.config.lists place.0 }
    {
        self.config.list(place)
    }

    /// How many further ions a zone holds.
    pub(crate) fn free(&self, trap: &Trap, zone: PlaceId) -> u32
        requires config { IsConfigOf trap.now self.now.config }
        requires zone { zone.0 < length trap.now.zones }
        ensures { result ≡ limit_of trap.now zone.0 - length (list_at self.now.config.lists zone.0) }
    {
        trap.limit(zone) - self.list(zone).len() as u32
    }
}
