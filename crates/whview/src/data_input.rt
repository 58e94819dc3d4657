//! Says where the input of a command is that reads data, and how long it may be.

ghost use Rattle.std.specs.Prelude.{◌≤◌};

/// The most bytes that an input may have where nothing else is said.
pub const USUAL_LIMIT: usize = 67_108_864;

/// The input of a command that reads data.
#[derive(Clone, Copy)]
pub struct DataInput<'a> {
    /// The file of the input; `None` for standard input.
    pub file: Option<&'a str>,
    /// The most bytes that the input may have, 1 to 2^40.
    pub limit: usize,
    ghost least: { 1 ≤ limit },
    ghost most: { limit ≤ 1099511627776 },
}
