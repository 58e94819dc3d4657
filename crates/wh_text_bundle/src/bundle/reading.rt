//! Reads the parts in the bytes of a bundle, up to the first that is at fault.
ghost use Rattle.std.specs.Prelude.{◌≡◌, ◌≢◌, Some, None, [], ◌∷◌, ◌++◌, List, IfOk, IfErr, OnOk, OnErr, OnSome, IfSome, MatchOption, true, false};
ghost use Rattle.wh_text_bundle.specs.Cut.{RawPart, cut};
ghost use Rattle.wh_text_bundle.specs.Heading.{fault_word, heading_of, heading_text};
ghost use Rattle.wh_text_bundle.specs.Bundle.{is_bad_night, is_at_fault, first_fault, parts_below};
ghost use Rattle.wh_text_bundle.specs.PartFault.{Names};
ghost use Rattle.wh_text_bundle.specs.Seen.{Recalls};
ghost use Rattle.wh_text_bundle.specs.RawPart.{shown};

use super::cut::{LentPart, first_part};
use super::fault::{Nights, PartFault};
use super::heading::Heading;
use super::line::is_blank_text;
use super::part::Part;
use super::piece::InputSlice;
use super::seen::Seen;
use super::spelling::{fault_word, heading_text};
use std::alloc::{AllocError, Global};
use wh_text::Word;

/// Returns whether the part is a night that is not read so.
fn is_bad_night(nights: Nights, heading: &Heading, body: &[u8]) -> bool
    ensures { result ≡ is_bad_night nights heading.now body.now }
{
    match (nights, heading) {
        (Nights::First, Heading::Night) => true,
        (Nights::All, Heading::Night) => !is_blank_text(body),
        _ => false,
    }
}

/// Returns the heading of a part that is not at fault below those seen, which is then seen too.
fn sound_heading<'a>(
    seen: &mut Seen<'a>,
    raw: &LentPart<'a>,
    nights: Nights,
) -> Result<Option<Heading<'a>>, AllocError>
    ensures fault { (above : List RawPart) → Recalls seen.old above → IfOk result (λ o. MatchOption o
        (is_at_fault nights above (shown raw.now) ≡ true)
        (λ _. is_at_fault nights above (shown raw.now) ≡ false)) }
    ensures heading { IfOk result (λ o. IfSome o (λ heading. heading_of (heading_text raw.now.opening.now) ≡ Some heading)) }
    ensures seen { (above : List RawPart) → Recalls seen.old above
        → IfOk result (λ o. OnSome o (Recalls seen.new (above ++ shown raw.now ∷ []))) }
{
    let text = heading_text(raw.opening);
    let Some(heading) = Heading::of(text) else {
        return Ok(None);
    };
    if !seen.note(&heading, text)? {
        return Ok(None);
    }
    if is_bad_night(nights, &heading, raw.body) {
        return Ok(None);
    }
    Ok(Some(heading))
}

/// Makes the fault of a heading.
fn fault_at(alloc: Global, opening: &[u8]) -> PartFault
    ensures { Names result (Some (fault_word (heading_text opening.now))) }
{
    match Word::new(alloc, fault_word(heading_text(opening))) {
        Ok(word) => PartFault::Part(word),
        Err(_) => PartFault::Memory,
    }
}

/// Returns the parts of a text that begins with one, or the first that is at fault.
pub fn read_parts<'a>(
    alloc: Global,
    text: &'a [u8],
    nights: Nights,
) -> Result<Vec<Part<'a>>, PartFault>
    requires { (cut text.now).preface ≡ [] }
    ensures parts { IfOk result (λ parts. parts.items ≡ parts_below [] (cut text.now).parts) }
    ensures sound { OnOk result (first_fault nights [] (cut text.now).parts ≡ None) }
    ensures fault { IfErr result (λ fault. Names fault (first_fault nights [] (cut text.now).parts)) }
    ensures memory { OnErr result (text.now ≢ []) }
{
    let mut parts = Vec::new(alloc);
    let mut seen = Seen::new(alloc);
    let mut night = 0;
    let mut rest = text;
    while !rest.is_empty() {
        let (raw, below) = first_part(rest);
        let Some(heading) = sound_heading(&mut seen, &raw, nights)? else {
            return Err(fault_at(alloc, raw.opening));
        };
        if heading.is_night() {
            night += 1;
        }
        parts.push(Part {
            heading,
            night,
            body: InputSlice::new(raw.body),
        })?;
        rest = below;
    }
    Ok(parts)
}
