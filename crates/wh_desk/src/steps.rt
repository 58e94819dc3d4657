//! Takes the steps at the store, by `left_right`.

ghost use Rattle.std.specs.Prelude.{◌≡◌, [], drop, fold, IfSome, MatchResult, Some};
ghost use Rattle.left_right.specs.Sides.{view};
ghost use Rattle.wh_desk.specs.Rules.{Follows, Sees, taken_in};

use crate::history::Told;
use crate::kept::{Kept, Publication};
use crate::rule::{Enters, Published, Puts, Tells};
use core::mem::replace_with;
use left_right::reader::{Reader, Reading};
use left_right::writer::Writer;
use std::alloc::AllocError;
use std::sync::Wait;
use wh_store::{well_formed_goes_on_law, window_law};

pub type Raw = Writer<Kept, Publication, Option<Told>, Published>;

pub type RawReader = Reader<Kept, Option<Told>, Published>;

pub type RawReading = Reading<Kept, Option<Told>, Published>;

/// Publishes what waits, over a writer by value.
fn publish_owned<R: Wait>(rt: &R, raw: Raw) -> (Raw, Result<(), AllocError>)
    requires { Follows raw.desk.shown.value (drop raw.behind raw.log.items) }
    ensures { MatchResult result.1 (λ _. (result.0.desk.shown.value ≡ fold taken_in raw.desk.shown.value (drop raw.behind raw.log.items)) × (drop result.0.behind result.0.log.items ≡ []) × (view result.0.desk.place ≡ Some result.0.desk.shown.value.front)) (λ _. (result.0.desk.shown.value ≡ raw.desk.shown.value) × (drop result.0.behind result.0.log.items ≡ drop raw.behind raw.log.items)) }
{
    window_law();
    well_formed_goes_on_law();
    raw.publish_as::<Puts, R>(rt)
}

/// Publishes what waits, where that goes on from what is published.
/// Fails for want of memory, and then publishes nothing.
pub fn publish_raw<R: Wait>(rt: &R, raw: &mut Raw) -> Result<(), AllocError>
    requires { Follows raw.old.desk.shown.value (drop raw.old.behind raw.old.log.items) }
    ensures { MatchResult result (λ _. (raw.new.desk.shown.value ≡ fold taken_in raw.old.desk.shown.value (drop raw.old.behind raw.old.log.items)) × (drop raw.new.behind raw.new.log.items ≡ []) × (view raw.new.desk.place ≡ Some raw.new.desk.shown.value.front)) (λ _. (raw.new.desk.shown.value ≡ raw.old.desk.shown.value) × (drop raw.new.behind raw.new.log.items ≡ drop raw.old.behind raw.old.log.items)) }
{
    replace_with(raw, rt, |raw, rt| publish_owned(rt, raw))
}

/// Makes a reader, which knows what the writer published last; `None` where it cannot be made.
pub fn reader_of(raw: &mut Raw) -> Option<RawReader>
    requires { view raw.old.desk.place ≡ Some raw.old.desk.shown.value.front }
    ensures kept { (raw.new.desk.shown.value ≡ raw.old.desk.shown.value) × (drop raw.new.behind raw.new.log.items ≡ drop raw.old.behind raw.old.log.items) × (view raw.new.desk.place ≡ view raw.old.desk.place) }
    ensures knows { IfSome result (λ r. view r.place ≡ Some raw.old.desk.shown.value.front) }
{
    let mut reader = raw.factory().reader().ok()?;
    reader.learn::<Tells>(raw.tell::<Tells>());
    Some(reader)
}

/// Enters what is shown, which begins with all that this reader saw.
/// Fails where there is no entry, and gives the reader back.
pub fn enter(reader: RawReader) -> Result<RawReading, RawReader>
    ensures { MatchResult result (λ r. Sees (view reader.place) r.part.value (view r.place)) (λ r. view r.place ≡ view reader.place) }
{
    reader.enter_as::<Enters>()
}
