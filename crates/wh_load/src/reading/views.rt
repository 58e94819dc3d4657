//! Holds the views that rows and strategies are read for.

ghost use Rattle.std.specs.Prelude.{◌≡◌, length};

use wh_text::Names;
use wh_text_catalogue::WrittenView;

/// The views of a catalogue, by number and by name, whose rows and strategies are to be read.
#[derive(Drop)]
pub struct KnownViews<'a> {
    pub names: &'a Names,
    pub views: &'a [WrittenView],
    pub ghost each: { length views.now ≡ length names.now },
}
