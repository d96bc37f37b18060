//! What a line runs on: the standard streams, and what is at the paths.

use crate::standard::StandardStreams;
use relay_places::Places;
use std::io::{Read, Write};

/// The standard streams, and what is at the paths.
#[derive(Drop)]
pub struct System<I: Read, O: Write, E: Write, P: Places> {
    pub standard: StandardStreams<I, O, E>,
    pub places: P,
}
