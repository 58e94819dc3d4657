//! A part of a bundle, and the text that its bytes stand for.
use super::heading::Heading;
use super::piece::InputSlice;
use super::text::body_text;
use std::alloc::{AllocError, Global};
use std::borrow::CowSlice;

/// A part of a bundle.
#[derive(Debug, Drop)]
pub struct Part<'a> {
    /// What it is.
    pub heading: Heading<'a>,
    /// The night in which it stands, from 0. A `@night` stands in the night that it opens.
    pub night: usize,
    /// The bytes between its heading's line and the next one.
    pub body: InputSlice<'a>,
}

impl<'a> Part<'a> {
    ghost use Rattle.std.specs.Prelude.{◌≡◌, IfOk, IsOkAnd};
    ghost use Rattle.std.specs.Cow.{cow_slice_items, IsBorrowedSlice};
    ghost use Rattle.wh_text_bundle.specs.Text.{text_of};

    /// Returns the text that the part's bytes stand for. It is lent, without memory, where it is the bytes themselves. Takes O(n) for n
    /// bytes.
    pub fn text(&self, alloc: Global) -> Result<CowSlice<'a, u8>, AllocError>
        ensures text { IfOk result (λ text. cow_slice_items text ≡ text_of self.now) }
        ensures lent { text_of self.now ≡ self.now.body → IsOkAnd result IsBorrowedSlice }
    {
        body_text(alloc, self.body.as_slice(), self.heading.is_csv())
    }
}
