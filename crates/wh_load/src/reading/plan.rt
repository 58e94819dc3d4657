//! Reads what `plan` works on: views and their sizes.

ghost use Rattle.std.specs.Prelude.{◌≡◌, ◌⊎◌, Ok, Err, IfOk, IfErr};
ghost use Rattle.wh_load.specs.ReadingPlan.{measured_in, measured_of, measured_texts_in, measured_texts_of};
ghost use Rattle.wh_load.specs.ReadingShown.{shown_measured};
ghost use Rattle.wh_load.specs.Inner.ReadingShown.{shown_measured_texts};

use super::inputs::MeasuredViews;
use super::parts::{bundle_of, text_of};
use super::texts::MeasuredTexts;
use std::alloc::Global;
use wh_text::LoadFault;
use wh_text_bundle::{Bundle, Heading, Nights};
use wh_text_catalogue::read_shape;
use wh_text_tables::read_sizes;

/// Returns the texts of the views and their sizes, or the first that is missing.
pub(super) fn measured_texts_in<'a>(
    alloc: Global,
    bundle: &Bundle<'a>,
) -> Result<MeasuredTexts<'a>, LoadFault>
    ensures ok { IfOk result (λ t. measured_texts_in bundle.now ≡ Ok (shown_measured_texts t)) }
    ensures err { IfErr result (λ f. (f ≡ LoadFault.Memory) ⊎ (measured_texts_in bundle.now ≡ Err f)) }
{
    let catalogue = text_of(alloc, bundle, &Heading::Catalogue, 0)?;
    let sizes = text_of(alloc, bundle, &Heading::Sizes, 0)?;
    Ok(MeasuredTexts { catalogue, sizes })
}

/// Returns what these texts say, or their first fault.
pub(super) fn measured_in(
    alloc: Global,
    texts: &MeasuredTexts<'_>,
) -> Result<MeasuredViews, LoadFault>
    ensures ok { IfOk result (λ m. measured_in (shown_measured_texts texts.now) ≡ Ok (shown_measured m)) }
    ensures err { IfErr result (λ f. (f ≡ LoadFault.Memory) ⊎ (measured_in (shown_measured_texts texts.now) ≡ Err f)) }
{
    let shape = read_shape(alloc, &texts.catalogue)?;
    let sizes = read_sizes(alloc, &shape, &texts.sizes)?;
    Ok(MeasuredViews { shape, sizes })
}

/// The texts of the parts that are read of these bytes.
fn read_texts<'a>(alloc: Global, bytes: &'a [u8]) -> Result<MeasuredTexts<'a>, LoadFault>
    ensures ok { IfOk result (λ t. measured_texts_of bytes.now ≡ Ok (shown_measured_texts t)) }
    ensures err { IfErr result (λ f. (f ≡ LoadFault.Memory) ⊎ (measured_texts_of bytes.now ≡ Err f)) }
{
    let bundle = bundle_of(alloc, bytes, Nights::Ignored)?;
    measured_texts_in(alloc, &bundle)
}

/// Reads what a bundle has to be planned for: its views and their sizes. Nights are not looked at.
/// Fails with the first fault: of the headings, from the top; the catalogue or the sizes that are missing; of the catalogue's text; of the
/// sizes'. Memory may come at any point.
pub fn read_for_plan(alloc: Global, bytes: &[u8]) -> Result<MeasuredViews, LoadFault>
    ensures ok { IfOk result (λ m. measured_of bytes.now ≡ Ok (shown_measured m)) }
    ensures err { IfErr result (λ f. (f ≡ LoadFault.Memory) ⊎ (measured_of bytes.now ≡ Err f)) }
{
    let texts = read_texts(alloc, bytes)?;
    measured_in(alloc, &texts)
}
