//! The state of the reader between two codewords.

use crate::letters::Letters;

/// The set of a C40 or Text value.
#[derive(Clone, Copy)]
pub(crate) enum Set {
    Basic,
    First,
    Second,
    Third,
}

/// The part of an unfinished character that was read: Upper Shift or not, and the set that was shifted to.
#[derive(Clone, Copy)]
pub(crate) struct Pending {
    pub upper: bool,
    pub set: Set,
}

/// No character is pending.
pub(crate) const NO_PENDING: Pending = Pending {
    upper: false,
    set: Set::Basic,
};

/// What the next codeword is to the reader.
#[derive(Clone, Copy)]
pub(crate) enum Mode {
    Ascii,
    /// After Upper Shift.
    Upper,
    /// In a run, before a pair.
    Run(Letters, Pending),
    /// In a run, after the first codeword of what may be a pair.
    Half(Letters, Pending, u8),
    /// After 231, the latch to Base 256.
    Length,
    /// After the first of two length codewords, of this value.
    LongLength(u8),
    /// In Base 256: this many bytes are left, and 231 stood at this position.
    Bytes(usize, usize),
    /// In Base 256, to the symbol's end.
    Rest,
    /// After the first pad.
    Padded,
}

/// Why a value has no meaning.
#[derive(Clone, Copy)]
pub(crate) enum ValueFault {
    /// It is the value 27 of set 2.
    Fnc1,
    /// Its set doesn't have it.
    Missing,
}
