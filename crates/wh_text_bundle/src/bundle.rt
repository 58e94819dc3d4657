//! The parts of a bundle, cut from its bytes once and found by their headings.
ghost use Rattle.std.specs.Prelude.{◌≡◌, ◌≢◌, [], None, IfOk, IfErr, OnOk, OnErr};
ghost use Rattle.wh_text_bundle.specs.Bundle.{fault_of, parts_of};
ghost use Rattle.wh_text_bundle.specs.Cut.{bytes_of, cut};
ghost use Rattle.wh_text_bundle.specs.PartFault.{Names};

mod cut;
pub mod fault;
pub mod filed;
pub mod heading;
mod line;
mod night;
pub mod part;
pub mod piece;
mod reading;
mod seen;
mod spelling;
mod text;

use cut::preface_len;
use fault::{Nights, PartFault};
use heading::{Heading, Scope};
use line::is_blank_text;
use night::{count_nights, first_with, parts_of_night};
use part::Part;
use reading::read_parts;
use std::alloc::Global;
use std::marker::Model;
use wh_text::Word;

/// The parts of an input, in the order in which they stand. It lends the input's bytes.
#[derive(Debug, Drop)]
pub struct Bundle<'a> {
    parts: Vec<Part<'a>>,
}

impl<'a> Model for Bundle<'a> {
    ghost use Rattle.std.specs.Prelude.{List};
    ghost use Rattle.std.specs.List.Sorted.{IsNonDecreasingBy};
    ghost use Rattle.wh_text_bundle.specs.declared.bundle.part.Part.{Part};

    ghost Value = { List Part };

    ghost view = { λ b. b.parts.items };

    ghost invariant = { λ b. IsNonDecreasingBy (λ p. p.night) b.parts.items };
}

impl<'a> Bundle<'a> {
    ghost use Rattle.std.specs.Prelude.{◌≡◌, option_copied};
    ghost use Rattle.wh_text_bundle.specs.Find.{found, parts_of_night, nights_of};

    /// Returns the parts in the order in which they stand.
    pub fn parts(&self) -> &[Part<'a>]
        ensures { result.now ≡ self.now }
    {
        self.parts.as_slice()
    }

    /// Returns how many nights there are: one from the start, and one for each `@night`. Takes O(p) for p parts.
    pub fn nights(&self) -> usize
        ensures { result ≡ nights_of self.now }
    {
        count_nights(&self.parts) + 1
    }

    /// Returns the parts of a night, which counts from 0, in the order in which they stand. Takes O(log p) for p parts.
    pub fn night(&self, night: usize) -> &[Part<'a>]
        ensures { result.now ≡ parts_of_night night self.now }
    {
        parts_of_night(&self.parts, night)
    }

    /// Returns the part with this heading, or `None`. The night matters only where the heading may stand in each. Compares O(p) headings
    /// for p parts.
    pub fn find(&self, heading: &Heading<'_>, night: usize) -> Option<&Part<'a>>
        ensures { option_copied result ≡ found heading.now night self.now }
    {
        match heading.scope() {
            Scope::Bundle => first_with(&self.parts, heading),
            Scope::Night | Scope::Any => first_with(parts_of_night(&self.parts, night), heading),
        }
    }
}

/// Cuts a bundle into its parts, or finds the first fault from the top of its text. Empty bytes have no part, no fault and take no memory.
/// Takes O(n log p) for n bytes with p parts.
#[tactic(auto, using(crate::proofs::CutLemmas::cut_whole))]
pub fn parts<'a>(alloc: Global, bytes: &'a [u8], nights: Nights) -> Result<Bundle<'a>, PartFault>
    // The lines above the parts, the parts' headings and their bodies, put together, are the bytes.
    ensures whole { bytes_of (cut bytes.now) ≡ bytes.now }
    ensures parts { IfOk result (λ bundle. bundle ≡ parts_of bytes.now) }
    ensures sound { OnOk result (fault_of nights bytes.now ≡ None) }
    ensures fault { IfErr result (λ fault. Names fault (fault_of nights bytes.now)) }
    ensures memory { OnErr result (bytes.now ≢ []) }
{
    let (preface, text) = bytes.split_at(preface_len(bytes));
    if !is_blank_text(preface) {
        return Err(PartFault::Part(Word::new(alloc, b"text")?));
    }
    let parts = read_parts(alloc, text, nights)?;
    Ok(Bundle { parts })
}
