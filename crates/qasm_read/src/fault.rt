//! Why a text isn't a program.

use qasm_tokens::TokenFault;
use qc_base::NoMemory;
use std::alloc::{AllocError, AllocFailed};
use thiserror::Error;

/// Why a text isn't a program, with the place of the byte where the fault begins.
#[derive(Clone, Copy, Debug, PartialEq, Eq, Error)]
pub enum QasmFault {
    /// No token begins there.
    #[error("no token")]
    Lex { at: u64 },
    /// A word, a real or a string of more than 64 bytes.
    #[error("long word")]
    LongWord { at: u64 },
    /// An integer above 2^64 - 1.
    #[error("large number")]
    BigNumber { at: u64 },
    /// A parenthesis after which more than 100 are open.
    #[error("too deep")]
    Deep { at: u64 },
    /// The text doesn't begin with `OPENQASM 2.0;`.
    #[error("no header")]
    Header,
    /// No statement begins there.
    #[error("no statement")]
    Statement { at: u64 },
    /// An expression of more than 1,000 nodes.
    #[error("large angle")]
    Large { at: u64 },
    #[error("no memory")]
    NoMemory,
}

impl From<NoMemory> for QasmFault {
    ghost use Rattle.std.specs.Prelude.{◌≡◌};
    ghost use Rattle.qasm_read.specs.declared.fault.QasmFault.TheVariants as fault;

    ghost from_gives = { λ _ e. e ≡ fault.NoMemory };

    fn from(_: NoMemory) -> QasmFault {
        QasmFault::NoMemory
    }
}

impl From<AllocError> for QasmFault {
    ghost use Rattle.std.specs.Prelude.{◌≡◌};
    ghost use Rattle.qasm_read.specs.declared.fault.QasmFault.TheVariants as fault;

    ghost from_gives = { λ _ e. e ≡ fault.NoMemory };

    fn from(_: AllocError) -> QasmFault {
        QasmFault::NoMemory
    }
}

impl<T: Drop> From<AllocFailed<T>> for QasmFault {
    ghost use Rattle.std.specs.Prelude.{◌≡◌};
    ghost use Rattle.qasm_read.specs.declared.fault.QasmFault.TheVariants as fault;

    ghost from_gives = { λ _ e. e ≡ fault.NoMemory };

    fn from(_: AllocFailed<T>) -> QasmFault {
        QasmFault::NoMemory
    }
}

impl From<TokenFault> for QasmFault {
    ghost use Rattle.std.specs.Prelude.{◌≡◌};
    ghost use Rattle.qasm_read.specs.TokenFaults.{fault_of};

    ghost from_gives = { λ fault e. e ≡ fault_of fault };

    fn from(fault: TokenFault) -> QasmFault {
        match fault {
            TokenFault::Lex { at } => QasmFault::Lex { at },
            TokenFault::LongWord { at } => QasmFault::LongWord { at },
            TokenFault::BigNumber { at } => QasmFault::BigNumber { at },
            TokenFault::Deep { at } => QasmFault::Deep { at },
        }
    }
}
