//! The two encodations in which two codewords hold three values, C40 and Text.

/// The letters that take one value: in C40 the capital ones, in Text the small ones.
#[derive(Clone, Copy, Debug, PartialEq, Eq)]
pub(crate) enum Letters {
    Capital,
    Small,
}
