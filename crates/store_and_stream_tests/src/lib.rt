//! Tests of stores and sets of stores: on real files, with each call on the file system failing in turn, and over an
//! allocator that refuses each growth in turn; and what a power loss leaves of a save. Tests of streams and of images:
//! known images and refusals, readers and writers that fail in mid-stream or are interrupted, and the texts of faults.
//! And a test of a helper: the copies of bytes that are spoiled.
#![tactic(auto)]

#[cfg(test)]
mod calls;
#[cfg(test)]
mod disks;
#[cfg(test)]
mod files;
#[cfg(test)]
mod helpers;
#[cfg(test)]
mod images;
#[cfg(test)]
mod memory;
#[cfg(test)]
mod scripted;
#[cfg(test)]
mod streams;
