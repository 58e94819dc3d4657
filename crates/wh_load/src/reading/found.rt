//! Finds the rows of base views that are read, tables or changes, in the parts of a bundle.

ghost use Rattle.std.specs.Prelude.{◌≡◌, option_copied};
ghost use Rattle.wh_text_catalogue.specs.Definitions.{shown_view};
ghost use Rattle.wh_load.specs.Inner.ReadingRows.{content_of, part_found, shown_rows};

use wh_text_bundle::{Bundle, Heading, InputSlice, Part};
use wh_text_catalogue::WrittenView;
use wh_text_tables::Content;

/// The rows of base views that are read: tables or changes.
#[derive(Clone, Copy)]
pub enum Rows {
    /// The tables of base views.
    Tables,
    /// The changes of base views in a night, which counts from 0.
    Changes(usize),
}

impl Rows {
    /// Returns what a part of these rows tells.
    pub fn content(self) -> Content
        ensures { result ≡ content_of (shown_rows self) }
    {
        match self {
            Rows::Tables => Content::Table,
            Rows::Changes(_) => Content::Changes,
        }
    }
}

/// Returns the part that has these rows of the view with this name; `None` where there is none, as of a derived view.
pub fn part_of<'b, 'a>(
    bundle: &'b Bundle<'a>,
    rows: Rows,
    name: &[u8],
    view: &WrittenView,
) -> Option<&'b Part<'a>>
    ensures { option_copied result ≡ part_found (shown_rows rows) bundle.now name.now (shown_view view.now) }
{
    if view.definition.is_some() {
        return None;
    }
    match rows {
        Rows::Tables => bundle.find(&Heading::Data(InputSlice::new(name)), 0),
        Rows::Changes(night) => bundle.find(&Heading::Changes(InputSlice::new(name)), night),
    }
}
