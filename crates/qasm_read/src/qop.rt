//! Quantum operations.

use crate::arg::{Arg, Args};
use crate::exp::Exps;
use qc_base::Name;

/// An operation on registers.
#[derive(Debug, Drop)]
pub enum Qop {
    U {
        params: Exps,
        arg: Arg,
    },
    Cx {
        control: Arg,
        target: Arg,
    },
    Call {
        gate: Name,
        params: Exps,
        args: Args,
    },
    Measure {
        source: Arg,
        target: Arg,
    },
    Reset {
        arg: Arg,
    },
}
