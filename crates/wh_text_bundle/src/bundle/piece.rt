//! A stretch of the input, so that contracts see its bytes and not where they lie.
ghost use Rattle.std.specs.Prelude.{◌≡◌};

use std::marker::Model;

/// A stretch of the input's bytes.
#[derive(Debug, Drop)]
pub struct InputSlice<'a> {
    bytes: &'a [u8],
}

impl<'a> Model for InputSlice<'a> {
    ghost use Rattle.std.specs.Prelude.{List, ℕ};

    ghost Value = { List ℕ };

    ghost view = { λ p. p.bytes.now };
}

impl<'a> InputSlice<'a> {
    /// Takes these bytes as a stretch.
    pub fn new(bytes: &'a [u8]) -> Self
        ensures { result ≡ bytes.now }
    {
        InputSlice { bytes }
    }

    /// Returns the bytes.
    pub fn as_slice(&self) -> &'a [u8]
        ensures { result.now ≡ self.now }
    {
        self.bytes
    }
}
