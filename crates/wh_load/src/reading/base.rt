//! Tests whether the parts of rows are of base views.

ghost use Rattle.std.specs.Prelude.{◌≡◌, ◌≢◌, ◌⊎◌, find, map, option_copied, None, Some, IfErr, OnOk, OnErr};
ghost use Rattle.wh_text_catalogue.specs.Definitions.{shown_view};
ghost use Rattle.wh_load.specs.ReadingNight.{first_stray, is_base_name, is_stray};

use super::views::KnownViews;
use std::alloc::Global;
use wh_text::{LoadFault, Names, Word};
use wh_text_bundle::{Bundle, Heading, Part};
use wh_text_catalogue::WrittenView;

/// Whether this word is the name of a base view.
fn is_base_name(names: &Names, views: &[WrittenView], word: &[u8]) -> bool
    ensures { result ≡ is_base_name names.now (map shown_view views.now) word.now }
{
    let Some(number) = names.position(word) else {
        return false;
    };
    match views.get(number) {
        Some(view) => view.definition.is_none(),
        None => false,
    }
}

/// Whether the heading is of rows of no base view.
fn is_stray(names: &Names, views: &[WrittenView], heading: &Heading<'_>) -> bool
    ensures { result ≡ is_stray names.now (map shown_view views.now) heading.now }
{
    match heading {
        Heading::Data(name) | Heading::Changes(name) => {
            !is_base_name(names, views, name.as_slice())
        }
        _ => false,
    }
}

/// The first of these parts whose rows are of no base view.
fn first_stray<'b, 'a>(
    names: &Names,
    views: &[WrittenView],
    parts: &'b [Part<'a>],
) -> Option<&'b Part<'a>>
    ensures { option_copied result ≡ find (λ part. is_stray names.now (map shown_view views.now) part.heading) parts.now }
{
    parts
        .iter()
        .find(|part| is_stray(names, views, &part.heading))
}

/// Tests that all parts of rows are of base views.
/// Fails with the fault of the first part whose rows are of no base view. Where there is none, no memory is taken.
pub fn only_base_parts(
    alloc: Global,
    bundle: &Bundle<'_>,
    known: &KnownViews<'_>,
) -> Result<(), LoadFault>
    ensures ok { OnOk result (first_stray known.now.names.now (map shown_view known.now.views.now) bundle.now ≡ None) }
    ensures err { IfErr result (λ f. (f ≡ LoadFault.Memory) ⊎ (first_stray known.now.names.now (map shown_view known.now.views.now) bundle.now ≡ Some f)) }
    ensures memory { OnErr result (first_stray known.now.names.now (map shown_view known.now.views.now) bundle.now ≢ None) }
{
    match first_stray(known.names, known.views, bundle.parts()) {
        Some(part) => Err(LoadFault::Part(Word::new(alloc, part.heading.word())?)),
        None => Ok(()),
    }
}
