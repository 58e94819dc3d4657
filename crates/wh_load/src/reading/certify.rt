//! Reads what `certify` works on: views, their sizes and a plan.

ghost use Rattle.std.specs.Prelude.{◌≡◌, ◌⊎◌, Ok, Err, IfOk, IfErr};
ghost use Rattle.wh_text_lines.specs.PlanText.{plan_of};
ghost use Rattle.wh_load.specs.ReadingCertify.{claim_in, claim_of, claim_texts_in, claim_texts_of};
ghost use Rattle.wh_load.specs.ReadingShown.{shown_claim};
ghost use Rattle.wh_load.specs.Inner.ReadingShown.{shown_claim_texts};

use super::inputs::CertifyInput;
use super::parts::{bundle_of, text_of};
use super::plan::{measured_in, measured_texts_in};
use super::texts::ClaimTexts;
use std::alloc::Global;
use wh_dag::Shape;
use wh_text::{LoadFault, Names};
use wh_text_bundle::{Bundle, Heading, Nights};
use wh_text_lines::{Plan, read_plan};

/// The texts of the parts that are read, or the first that is missing.
fn claim_texts_in<'a>(alloc: Global, bundle: &Bundle<'a>) -> Result<ClaimTexts<'a>, LoadFault>
    ensures ok { IfOk result (λ t. claim_texts_in bundle.now ≡ Ok (shown_claim_texts t)) }
    ensures err { IfErr result (λ f. (f ≡ LoadFault.Memory) ⊎ (claim_texts_in bundle.now ≡ Err f)) }
{
    let measured = measured_texts_in(alloc, bundle)?;
    let plan = text_of(alloc, bundle, &Heading::Plan, 0)?;
    Ok(ClaimTexts { measured, plan })
}

/// The texts of the parts that are read of these bytes.
fn read_texts<'a>(alloc: Global, bytes: &'a [u8]) -> Result<ClaimTexts<'a>, LoadFault>
    ensures ok { IfOk result (λ t. claim_texts_of bytes.now ≡ Ok (shown_claim_texts t)) }
    ensures err { IfErr result (λ f. (f ≡ LoadFault.Memory) ⊎ (claim_texts_of bytes.now ≡ Err f)) }
{
    let bundle = bundle_of(alloc, bytes, Nights::Ignored)?;
    claim_texts_in(alloc, &bundle)
}

/// The plan over the views of this shape.
fn planned(alloc: Global, shape: &Shape, text: &[u8]) -> Result<Plan, LoadFault>
    ensures ok { IfOk result (λ plan. plan_of shape.now.names text.now ≡ Ok plan) }
    ensures err { IfErr result (λ f. (f ≡ LoadFault.Memory) ⊎ (plan_of shape.now.names text.now ≡ Err f)) }
{
    let names = Names::of(alloc, shape)?;
    read_plan(alloc, &names, text)
}

/// What these texts say, or their first fault.
fn claim_in(alloc: Global, texts: &ClaimTexts<'_>) -> Result<CertifyInput, LoadFault>
    ensures ok { IfOk result (λ c. claim_in (shown_claim_texts texts.now) ≡ Ok (shown_claim c)) }
    ensures err { IfErr result (λ f. (f ≡ LoadFault.Memory) ⊎ (claim_in (shown_claim_texts texts.now) ≡ Err f)) }
{
    let measured = measured_in(alloc, &texts.measured)?;
    let plan = planned(alloc, &measured.shape, &texts.plan)?;
    Ok(CertifyInput { measured, plan })
}

/// Reads what a bundle has to be certified: its views, their sizes and its plan. Nights are not looked at.
/// Fails with the first fault: of the headings, from the top; the catalogue, the sizes or the plan that are missing. Then come the faults
/// of the catalogue's text, of the sizes', and of the plan's. Memory may come at any point.
pub fn read_for_certify(alloc: Global, bytes: &[u8]) -> Result<CertifyInput, LoadFault>
    ensures ok { IfOk result (λ c. claim_of bytes.now ≡ Ok (shown_claim c)) }
    ensures err { IfErr result (λ f. (f ≡ LoadFault.Memory) ⊎ (claim_of bytes.now ≡ Err f)) }
{
    let texts = read_texts(alloc, bytes)?;
    claim_in(alloc, &texts)
}
