//! Words by a linear congruential generator.

ghost use Rattle.std.specs.Prelude.{◌≡◌, ◌<◌, ◌^◌};
ghost use Rattle.load_setup.specs.Words.{next_state, word_after};

use std::marker::Model;

/// The words after a seed. Clauses see the state.
#[derive(Debug, Drop)]
pub struct Words {
    state: u64,
}

impl Model for Words {
    ghost use Rattle.std.specs.Prelude.{ℕ};

    ghost Value = { ℕ };

    ghost view = { λ w. w.state };
}

impl Words {
    /// The state starts as the seed.
    pub fn new(seed: u64) -> Words
        ensures { result ≡ seed }
    {
        Words { state: seed }
    }

    /// The next word.
    #[tactic(auto, unfolding(crate::specs::Words::next_state))]
    pub fn next(&mut self) -> u64
        ensures word { result ≡ word_after self.old }
        ensures state { self.new ≡ next_state self.old }
    {
        self.state = self
            .state
            .wrapping_mul(6_364_136_223_846_793_005)
            .wrapping_add(1_442_695_040_888_963_407);
        self.state >> 33
    }
}
