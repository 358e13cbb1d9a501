//! Bytes that tell where they stood.

use mcs_base::Memory;
use std::alloc::Global;

/// So many bytes, each of which differs from its neighbours, so that a piece out of place shows.
pub fn pattern(alloc: Global, size: usize) -> Result<Vec<u8>, Memory> {
    let mut bytes = Vec::with_capacity(alloc, size)?;
    for place in 0..size {
        bytes.push((place % 251) as u8)?;
    }
    Ok(bytes)
}
