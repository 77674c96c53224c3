//! Arguments of operations.

use qc_base::{Items, Name};

/// A register, or one of it by its index.
#[derive(Debug, Drop)]
pub struct Arg {
    pub name: Name,
    pub index: Option<u64>,
}

/// Arguments, in order.
pub type Args = Items<Arg>;
