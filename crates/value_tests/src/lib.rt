//! Tests with values from outside. Of symbols and labels, layer by layer: the field, sizes and error correction
//! codewords, corrections, encodations, the cells of the mapping matrix and finder patterns, whole symbols, and labels.
//! Of printers and desks over stores in memory: each public call, over ample memory. And the texts of faults.
//!
//! And tests of printers and desks that are refused something: over an allocator that refuses each growth in turn, over
//! stores and sets that stop at each of their calls, and over files and tickets of which a byte is spoiled. What is
//! expected of these comes from second readers, in `table` and `spoiled`, that share no code with the crates.
#![tactic(auto)]

#[cfg(test)]
mod blocks;
#[cfg(test)]
mod corrector;
#[cfg(test)]
mod desks;
#[cfg(test)]
mod encodations;
#[cfg(test)]
mod faults;
#[cfg(test)]
mod field;
#[cfg(test)]
mod grids;
#[cfg(test)]
mod labels;
#[cfg(test)]
mod printers;
#[cfg(test)]
mod refused_desks;
#[cfg(test)]
mod refused_printers;
#[cfg(test)]
mod symbols;
#[cfg(test)]
mod worked;
