//! What an assignment says of a step.

ghost use Rattle.std.specs.Prelude.{◌≡◌, ◌<◌, ◌++◌, ◌^◌, [], All, length, map, IfOk};
ghost use Rattle.step_vars.specs.Items.{time_of};
ghost use Rattle.step_facts.specs.ToSchedule.{passing_count as passing_count_of, action_of, happens};
ghost use Rattle.extract.specs.Reading.{CanRead, facts_in, lists_in, place_in, seen, actions_in};

use crate::activity::Activity;
use crate::chains::index_of_pair;
use qc_base::{Ion, NoMemory, OpId, PlaceId};
use sat_base::Assignment;
use std::alloc::Global;
use step_rules::{Action, Config};
use step_vars::{Item, Vars};

/// The values of variables, in a step that begins with a configuration.
#[derive(Drop)]
pub struct Reader<'a> {
    pub vars: &'a Vars,
    pub values: &'a Assignment,
    pub config: &'a Config,
    pub step: u32,
}

impl<'a> Reader<'a> {
    // Whether an item of the step is true.
    fn holds(&self, item: &Item) -> bool
        requires reads { CanRead self.now }
        requires step { time_of item.now ≡ self.now.step }
        ensures { result ≡ facts_in self.now item.now }
    {
        match self.vars.number(item) {
            Some(var) => self.values.value(var),
            None => false,
        }
    }

    // How many of these ions pass through a channel.
    fn passing_count(&self, channel: u32, ions: &[Ion]) -> u32
        requires reads { CanRead self.now }
        requires few { length ions.now < 2 ^ 32 }
        ensures { result ≡ passing_count_of (facts_in self.now) channel self.now.step ions.now }
    {
        let mut count = 0;
        for ion in ions {
            let passes = Item::Leave {
                ion: *ion,
                channel,
                step: self.step,
            };
            if self.holds(&passes) {
                count += 1;
            }
        }
        count
    }

    // The action of an activity.
    fn action(&self, activity: &Activity) -> Action
        requires reads { CanRead self.now }
        requires there { place_in (seen activity.now) < length (lists_in self.now) }
        ensures { result
            ≡ action_of (facts_in self.now) self.now.step (lists_in self.now) (seen activity.now) }
    {
        match *activity {
            Activity::Passage { number, channel } => {
                let ions = self.config.list(channel.from);
                Action::through(&channel, self.passing_count(number, ions))
            }
            Activity::Exchange {
                first,
                second,
                zone,
            } => Action::Swap {
                zone: PlaceId(zone),
                index: index_of_pair(first, second, self.config.list(PlaceId(zone))),
            },
            Activity::Operation { op, zone } => Action::Op {
                zone: PlaceId(zone),
                op: OpId(op),
            },
        }
    }

    /// The actions of the activities that happen.
    pub fn actions(&self, alloc: Global, activities: &[Activity]) -> Result<Vec<Action>, NoMemory>
        requires reads { CanRead self.now }
        requires there { All (λ activity. place_in (seen activity) < length (lists_in self.now)) activities.now }
        ensures { IfOk result (λ actions. actions.items ≡ actions_in self.now (map seen activities.now)) }
    {
        let mut actions = Vec::new(alloc);
        for activity in activities {
            if self.holds(&activity.item(self.step)) {
                actions.push(self.action(activity))?;
            }
        }
        Ok(actions)
    }
}
