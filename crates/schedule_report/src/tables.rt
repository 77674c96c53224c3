//! All counts of a report, made in one pass.

ghost use Rattle.std.specs.Prelude.{◌≡◌, length, replicate, max, fold, IfOk};
ghost use Rattle.std.specs.Option.{option_map};
ghost use Rattle.step_rules.specs.Play.{actions_of};
ghost use Rattle.schedule_report.specs.Counts.{tally_of, zone_of};
ghost use Rattle.schedule_report.specs.Report.{ops_in, most_ops};
ghost use Rattle.schedule_report.specs.Tables.{no_actions, with_action, table_with, zone_tallies};

use crate::counting::operations_in;
use crate::tally::Tally;
use qc_base::{NoMemory, PlaceId};
use std::alloc::Global;
use step_rules::{Action, Step};

/// The tally of all actions, those of the zones, and the most operations in one step.
#[derive(Debug, Drop)]
pub struct Tables {
    pub all: Tally,
    pub zones: Vec<Tally>,
    pub parallel: u64,
}

// The zone that an action names.
fn zone_of(action: &Action) -> Option<PlaceId>
    ensures { option_map (λ zone. zone.0) result ≡ zone_of action.now }
{
    match action {
        Action::Split { zone, .. } | Action::Merge { zone, .. } => Some(*zone),
        Action::Swap { zone, .. } | Action::Op { zone, .. } => Some(*zone),
        Action::Move { .. } | Action::Cross { .. } => None,
    }
}

// Counts an action in the table of the zones.
fn add_to_zone(tallies: &mut Vec<Tally>, action: &Action)
    ensures { tallies.new.items ≡ table_with tallies.old.items action.now }
{
    if let Some(zone) = zone_of(action) {
        let zone = zone.0 as usize;
        if zone < tallies.len() {
            tallies[zone].add(action);
        }
    }
}

// So many tallies of no actions.
fn empty_tallies(alloc: Global, count: usize) -> Result<Vec<Tally>, NoMemory>
    ensures { IfOk result (λ tallies. tallies.items ≡ replicate count no_actions) }
{
    Ok(vec![in alloc; Tally::new(); count]?)
}

impl Tables {
    // Counts the actions of a step.
    fn add_step(&mut self, step: &[Action])
        ensures all { self.new.all ≡ fold with_action self.old.all step.now }
        ensures zones { self.new.zones.items ≡ fold table_with self.old.zones.items step.now }
        ensures parallel { self.new.parallel ≡ max self.old.parallel (ops_in step.now) }
    {
        for action in step {
            self.all.add(action);
            add_to_zone(&mut self.zones, action);
        }
        self.parallel = self.parallel.max(operations_in(step));
    }

    /// The counts of these steps, for so many zones.
    #[tactic(auto, using(crate::proofs::Steps::actions_more, crate::proofs::Tallied::fold_tally, crate::proofs::ZoneTables::fold_table))]
    pub fn of(alloc: Global, zones: usize, steps: &[Step]) -> Result<Tables, NoMemory>
        ensures all { IfOk result (λ tables. tables.all ≡ tally_of (actions_of steps.now)) }
        ensures zones { IfOk result (λ tables. tables.zones.items ≡ zone_tallies zones (actions_of steps.now)) }
        ensures parallel { IfOk result (λ tables. tables.parallel ≡ most_ops steps.now) }
    {
        let mut tables = Tables {
            all: Tally::new(),
            zones: empty_tallies(alloc, zones)?,
            parallel: 0,
        };
        for step in steps {
            tables.add_step(step.actions());
        }
        Ok(tables)
    }
}
