//! Lists of names.

use qc_base::{Items, Name};

/// Names, in order.
pub type Names = Items<Name>;
