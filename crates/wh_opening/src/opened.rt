//! Holds the views that tables are read for.

ghost use Rattle.std.specs.Prelude.{◌≡◌, length};

use wh_text::Names;
use wh_text_catalogue::WrittenView;

/// The views of a catalogue, by number and by name, whose tables are to be read.
#[derive(Drop)]
pub(crate) struct OpenedViews<'a> {
    pub(crate) names: &'a Names,
    pub(crate) views: &'a [WrittenView],
    pub(crate) ghost each: { length views.now ≡ length names.now },
}
