//! Holds what stands of the nights before.

ghost use Rattle.std.specs.Prelude.{◌≡◌, length};

use wh_text::Names;
use wh_text_catalogue::WrittenView;

/// What stands of a catalogue that was read before, over which the parts of a later night are read.
#[derive(Drop)]
pub struct StandingViews<'a> {
    /// The names of the views.
    pub names: &'a Names,
    /// The views, in the order of their numbers.
    pub views: &'a [WrittenView],
    /// The text of the strategy of nights that write none of their own, if there is one.
    pub strategy: Option<&'a [u8]>,
    pub ghost each: { length views.now ≡ length names.now },
}
