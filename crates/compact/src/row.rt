//! The actions of a step that is filled.

ghost use Rattle.std.specs.Prelude.{◌≡◌, [], ◌∷◌, ◌++◌, OnOk};

use qc_base::NoMemory;
use smallvec::SmallVec;
use std::alloc::Global;
use std::marker::Model;
use step_rules::Action;

/// Actions in order. Clauses see the list.
#[derive(Debug, Drop)]
pub(crate) struct Row {
    actions: SmallVec<Action, 1>,
}

impl Model for Row {
    ghost use Rattle.std.specs.Prelude.{List};
    ghost use Rattle.step_rules.specs.declared.action.Action.{Action};

    ghost Value = { List Action };

    ghost view = { λ r. r.actions.items };
}

impl Row {
    /// No action.
    pub fn new(alloc: Global) -> Row
        ensures { result ≡ [] }
    {
        Row {
            actions: SmallVec::new(alloc),
        }
    }

    /// The actions.
    pub fn actions(&self) -> &[Action]
        ensures { result.now ≡ self.now }
    {
        self.actions.as_slice()
    }

    /// Adds an action at the end.
    pub fn add(&mut self, action: Action) -> Result<(), NoMemory>
        ensures { OnOk result (self.new ≡ self.old ++ action ∷ []) }
    {
        self.actions.push(action)?;
        Ok(())
    }
}
