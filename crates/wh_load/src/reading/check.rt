//! Reads what `check` works on: views, their sizes and a strategy.

ghost use Rattle.std.specs.Prelude.{◌≡◌, ◌⊎◌, Ok, Err, IfOk, IfErr};
ghost use Rattle.wh_text_lines.specs.StrategyText.{strategy_of};
ghost use Rattle.wh_load.specs.ReadingCheck.{check_texts_in, check_texts_of, inputs_in, inputs_of};
ghost use Rattle.wh_load.specs.ReadingShown.{shown_check};
ghost use Rattle.wh_load.specs.Inner.ReadingShown.{shown_check_texts};

use super::inputs::{CheckInput, MeasuredViews};
use super::parts::{bundle_of, text_of};
use super::plan::measured_texts_in;
use super::texts::CheckTexts;
use std::alloc::Global;
use wh_dag::Shape;
use wh_strategy::Strategy;
use wh_text::{LoadFault, Names};
use wh_text_bundle::{Bundle, Heading, Nights};
use wh_text_catalogue::read_shape;
use wh_text_lines::read_strategy;
use wh_text_tables::read_sizes;

/// The texts of the parts that are read, or the first that is missing.
fn check_texts_in<'a>(alloc: Global, bundle: &Bundle<'a>) -> Result<CheckTexts<'a>, LoadFault>
    ensures ok { IfOk result (λ t. check_texts_in bundle.now ≡ Ok (shown_check_texts t)) }
    ensures err { IfErr result (λ f. (f ≡ LoadFault.Memory) ⊎ (check_texts_in bundle.now ≡ Err f)) }
{
    let measured = measured_texts_in(alloc, bundle)?;
    let strategy = text_of(alloc, bundle, &Heading::Strategy, 0)?;
    Ok(CheckTexts { measured, strategy })
}

/// The texts of the parts that are read of these bytes.
fn read_texts<'a>(alloc: Global, bytes: &'a [u8]) -> Result<CheckTexts<'a>, LoadFault>
    ensures ok { IfOk result (λ t. check_texts_of bytes.now ≡ Ok (shown_check_texts t)) }
    ensures err { IfErr result (λ f. (f ≡ LoadFault.Memory) ⊎ (check_texts_of bytes.now ≡ Err f)) }
{
    let bundle = bundle_of(alloc, bytes, Nights::First)?;
    check_texts_in(alloc, &bundle)
}

/// The strategy over the views of this shape.
fn listed(alloc: Global, shape: &Shape, text: &[u8]) -> Result<Strategy, LoadFault>
    ensures ok { IfOk result (λ strategy. strategy_of shape.now.names text.now ≡ Ok strategy) }
    ensures err { IfErr result (λ f. (f ≡ LoadFault.Memory) ⊎ (strategy_of shape.now.names text.now ≡ Err f)) }
{
    let names = Names::of(alloc, shape)?;
    read_strategy(alloc, &names, text)
}

/// What these texts say, or their first fault.
fn inputs_in(alloc: Global, texts: &CheckTexts<'_>) -> Result<CheckInput, LoadFault>
    ensures ok { IfOk result (λ i. inputs_in (shown_check_texts texts.now) ≡ Ok (shown_check i)) }
    ensures err { IfErr result (λ f. (f ≡ LoadFault.Memory) ⊎ (inputs_in (shown_check_texts texts.now) ≡ Err f)) }
{
    let shape = read_shape(alloc, &texts.measured.catalogue)?;
    let strategy = listed(alloc, &shape, &texts.strategy)?;
    let sizes = read_sizes(alloc, &shape, &texts.measured.sizes)?;
    let measured = MeasuredViews { shape, sizes };
    Ok(CheckInput { measured, strategy })
}

/// Reads what a bundle of one night has to be checked: its views, their sizes and its strategy.
/// Fails with the first fault: of the headings, from the top, a further night among them; the catalogue, the sizes or the strategy that are
/// missing. Then come the faults of the catalogue's text, of the strategy's, and of the sizes'. Memory may come at any point.
pub fn read_for_check(alloc: Global, bytes: &[u8]) -> Result<CheckInput, LoadFault>
    ensures ok { IfOk result (λ i. inputs_of bytes.now ≡ Ok (shown_check i)) }
    ensures err { IfErr result (λ f. (f ≡ LoadFault.Memory) ⊎ (inputs_of bytes.now ≡ Err f)) }
{
    let texts = read_texts(alloc, bytes)?;
    inputs_in(alloc, &texts)
}
