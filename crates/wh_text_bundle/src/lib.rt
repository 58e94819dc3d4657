//! The bytes of an input, and the parts of a bundle.
//!
//! [`read_all`] reads the bytes of an input, and [`parts`] cuts them into the parts of a bundle, which lends them.
#![tactic(auto)]

mod bundle;
mod read;

pub use bundle::fault::{Nights, PartFault};
pub use bundle::filed::{FiledPart, files_are_read_as_they_are, first_filed, lines_of_part};
pub use bundle::heading::{Heading, Scope};
pub use bundle::part::Part;
pub use bundle::piece::InputSlice;
pub use bundle::{Bundle, parts};
pub use read::{ReadFault, read_all};
