//! Spoiled copies of bytes, for tests of what reads them: one byte is changed or added, or the end is cut off. And
//! counts of what is answered to them.

use std::alloc::{AllocError, Global};

// Adds a copy for each byte that may stand between what is before a place and what is after it.
fn add_between(
    copies: &mut Vec<Vec<u8>>,
    alloc: Global,
    before: &[u8],
    after: &[u8],
) -> Result<(), AllocError> {
    for byte in 0..=255u8 {
        let copy = [before, [byte].as_slice(), after].concat(alloc)?;
        copies.push(copy)?;
    }
    Ok(())
}

// Adds the copies that differ at the place between what is before it and what is after it.
fn add_at(
    copies: &mut Vec<Vec<u8>>,
    alloc: Global,
    before: &[u8],
    after: &[u8],
) -> Result<(), AllocError> {
    copies.push(before.to_vec(alloc)?)?;
    add_between(copies, alloc, before, after)?;
    match after {
        [_, rest @ ..] => add_between(copies, alloc, before, rest),
        [] => Ok(()),
    }
}

/// All copies that are one byte away: with each byte changed to each value (its own too), with each value put in at
/// each place, and cut off at each place.
///
/// # Errors
/// Where the allocator refuses its memory.
pub fn spoiled(alloc: Global, bytes: &[u8]) -> Result<Vec<Vec<u8>>, AllocError> {
    let mut copies = Vec::new(alloc);
    for at in 0..bytes.len() {
        let (before, after) = bytes.split_at(at);
        add_at(&mut copies, alloc, before, after)?;
    }
    add_between(&mut copies, alloc, bytes, &[])?;
    Ok(copies)
}

/// Adds one to the count that stands where the answer's name does.
pub fn count(counts: &mut [u32], names: &[&str], answer: &str) {
    for (count, name) in counts.iter_mut().zip(names.iter()) {
        if *name == answer {
            *count = count.saturating_add(1);
        }
    }
}
