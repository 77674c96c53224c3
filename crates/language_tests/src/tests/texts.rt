//! Texts that the tests read.

use qc_base::NoMemory;
use std::alloc::Global;

/// A file with this text after the line of its header.
pub fn file(alloc: Global, text: &[u8]) -> Result<Vec<u8>, NoMemory> {
    let mut bytes = Vec::from_slice(alloc, b"OPENQASM 2.0;\n")?;
    bytes.extend_from_slice(text)?;
    Ok(bytes)
}

/// So many of a byte between two texts.
pub fn many(
    alloc: Global,
    front: &[u8],
    byte: u8,
    count: usize,
    end: &[u8],
) -> Result<Vec<u8>, NoMemory> {
    let mut text = Vec::from_slice(alloc, front)?;
    for _ in 0..count {
        text.push(byte)?;
    }
    text.extend_from_slice(end)?;
    Ok(text)
}
