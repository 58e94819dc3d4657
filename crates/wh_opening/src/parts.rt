//! Finds the parts of an opening, and the first of another sort.

ghost use Rattle.std.specs.Cow.{cow_slice_items};
ghost use Rattle.std.specs.Prelude.{◌≡◌, ◌⊎◌, find, map, option_copied, None, Some, Ok, Err, IfOk, IfErr, OnOk};
ghost use Rattle.wh_load.specs.Inner.ReadingRows.{part_found};
ghost use Rattle.wh_load.specs.ReadingNight.{TableRows, is_base_name};
ghost use Rattle.wh_load.specs.ReadingParts.{parts_in, text_in};
ghost use Rattle.wh_text_catalogue.specs.Definitions.{shown_view};
ghost use Rattle.wh_text_bundle.specs.declared.bundle.fault.Nights.TheVariants as nights;
ghost use Rattle.wh_text_bundle.specs.declared.bundle.heading.Heading.TheVariants as heading;
ghost use Rattle.wh_opening.specs.OpeningRead.{first_foreign, is_foreign};

use crate::opened::OpenedViews;
use std::alloc::Global;
use std::borrow::CowSlice;
use wh_load::{
    Bundle, Heading, InputSlice, LoadFault, Names, Nights, Part, PartFault, Word, WrittenView,
    parts,
};

/// Cuts the bytes of an opening into its parts.
pub(crate) fn parts_of(alloc: Global, bytes: &[u8]) -> Result<Bundle<'_>, LoadFault>
    ensures ok { IfOk result (λ bundle. parts_in nights.First bytes.now ≡ Ok bundle) }
    ensures err { IfErr result (λ f. (f ≡ LoadFault.Memory) ⊎ (parts_in nights.First bytes.now ≡ Err f)) }
{
    parts(alloc, bytes, Nights::First).map_err(|fault| match fault {
        PartFault::Part(word) => LoadFault::Part(word),
        PartFault::Memory => LoadFault::Memory,
    })
}

/// Returns the text of the catalogue.
/// Fails with a fault that names the part where it is missing. Memory may come at any point.
pub(crate) fn catalogue_text<'a>(
    alloc: Global,
    bundle: &Bundle<'a>,
) -> Result<CowSlice<'a, u8>, LoadFault>
    ensures ok { IfOk result (λ text. text_in bundle.now heading.Catalogue 0 ≡ Ok (cow_slice_items text)) }
    ensures err { IfErr result (λ f. (f ≡ LoadFault.Memory) ⊎ (text_in bundle.now heading.Catalogue 0 ≡ Err f)) }
{
    let heading = Heading::Catalogue;
    match bundle.find(&heading, 0) {
        Some(part) => Ok(part.text(alloc)?),
        None => Err(LoadFault::Part(Word::new(alloc, heading.word())?)),
    }
}

/// Whether this word is the name of a base view.
fn is_base_name(names: &Names, views: &[WrittenView], word: &[u8]) -> bool
    ensures { result ≡ is_base_name names.now (map shown_view views.now) word.now }
{
    let Some(number) = names.position(word) else {
        return false;
    };
    match views.get(number) {
        Some(view) => view.definition.is_none(),
        None => false,
    }
}

/// Whether an opening has no part with this heading.
fn is_foreign(names: &Names, views: &[WrittenView], heading: &Heading<'_>) -> bool
    ensures { result ≡ is_foreign names.now (map shown_view views.now) heading.now }
{
    match heading {
        Heading::Catalogue | Heading::Strategy => false,
        Heading::Data(name) => !is_base_name(names, views, name.as_slice()),
        _ => true,
    }
}

/// The first of these parts that an opening does not have.
fn first_foreign<'b, 'a>(
    names: &Names,
    views: &[WrittenView],
    parts: &'b [Part<'a>],
) -> Option<&'b Part<'a>>
    ensures { option_copied result ≡ find (λ part. is_foreign names.now (map shown_view views.now) part.heading) parts.now }
{
    parts
        .iter()
        .find(|part| is_foreign(names, views, &part.heading))
}

/// Tests that an opening may have all parts.
/// Fails with the fault of the first that it may not have. Memory may come at any point.
pub(crate) fn only_opening_parts(
    alloc: Global,
    bundle: &Bundle<'_>,
    opened: &OpenedViews<'_>,
) -> Result<(), LoadFault>
    ensures ok { OnOk result (first_foreign opened.now.names.now (map shown_view opened.now.views.now) bundle.now ≡ None) }
    ensures err { IfErr result (λ f. (f ≡ LoadFault.Memory) ⊎ (first_foreign opened.now.names.now (map shown_view opened.now.views.now) bundle.now ≡ Some f)) }
{
    match first_foreign(opened.names, opened.views, bundle.parts()) {
        Some(part) => Err(LoadFault::Part(Word::new(alloc, part.heading.word())?)),
        None => Ok(()),
    }
}

/// Returns the part that has the table of the view with this name; `None` where there is none, as of a derived view.
pub(crate) fn table_part<'b, 'a>(
    bundle: &'b Bundle<'a>,
    name: &[u8],
    view: &WrittenView,
) -> Option<&'b Part<'a>>
    ensures { option_copied result ≡ part_found TableRows bundle.now name.now (shown_view view.now) }
{
    if view.definition.is_some() {
        return None;
    }
    bundle.find(&Heading::Data(InputSlice::new(name)), 0)
}
