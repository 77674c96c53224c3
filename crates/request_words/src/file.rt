//! The files of a request.

/// A file that a request reads.
#[derive(Clone, Copy, Debug, PartialEq, Eq)]
pub enum File {
    /// The circuit.
    Circuit,
    /// The trap.
    Trap,
    /// The schedule that is to be judged.
    Schedule,
    /// The certificate of a schedule that is to be verified.
    Certificate,
}
