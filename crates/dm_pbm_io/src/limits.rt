//! What is read at most.

/// The greatest width and the greatest height.
pub const GREATEST_SIDE: u16 = 1024;

/// The most bytes of a header, its magic number counted.
pub const HEADER_BYTES: u16 = 4096;

/// The most bytes of a plain raster.
pub const PLAIN_BYTES: u32 = 4_194_304;
