//! Literals.

ghost use Rattle.std.specs.Prelude.{◌≡◌, ◌<◌, ◌≤◌, ◌^◌};
ghost use Rattle.sat_base.specs.Literal.{negated};

use std::marker::Model;

/// A variable, from 1 to 2^31 - 1, with a sign. Contracts see the two.
#[derive(Clone, Copy, Debug, PartialEq, Eq)]
pub struct Lit {
    // Twice the variable, and one more where it is negated.
    code: u32,
}

impl Model for Lit {
    ghost use Rattle.std.specs.Prelude.{◌+◌, ◌*◌, ◌/◌, ◌%◌, ◌==◌, ◌<◌, ◌≤◌, ◌^◌, if◌then◌else◌};
    ghost use Rattle.sat_base.specs.Literal.{Literal};

    ghost Value = { Literal };

    ghost view = { λ l. record { var = l.code / 2; positive = l.code % 2 == 0 } };

    ghost invariant = { λ l. (2 ≤ l.code) × (l.code < 2 ^ 32) };

    ghost inverse = { λ l. record { code = 2 * l.var + (if l.positive then 0 else 1) } };
}

impl Lit {
    /// The literal of that variable, negated where it is not positive.
    pub fn new(var: u32, positive: bool) -> Lit
        requires from_1 { 1 ≤ var }
        requires below { var < 2 ^ 31 }
        ensures { result ≡ record { var = var; positive = positive } }
    {
        let sign = if positive { 0 } else { 1 };
        Lit {
            code: 2 * var + sign,
        }
    }

    /// Its variable.
    pub fn var(self) -> u32
        ensures var { result ≡ self.var }
        ensures from_1 { 1 ≤ result }
        ensures below { result < 2 ^ 31 }
    {
        self.code / 2
    }

    /// Whether it is the variable itself.
    pub fn positive(self) -> bool
        ensures { result ≡ self.positive }
    {
        self.code % 2 == 0
    }

    /// The same variable with the other sign.
    pub fn negated(self) -> Lit
        ensures { result ≡ negated self }
    {
        Lit::new(self.var(), !self.positive())
    }
}
