//! The headings above a place, by which a repeated one is found.
use super::heading::{Heading, Scope};
use std::alloc::{AllocError, Global};
use std::collections::BTreeSet;

/// The headings above a place, in sets, so that a repeated one is found without going over all of them.
#[derive(Drop)]
pub struct Seen<'a> {
    /// The texts of those that may stand once in the bundle.
    pub bundle: BTreeSet<&'a [u8]>,
    /// The texts of those in the open night that may stand once in it.
    pub night: BTreeSet<&'a [u8]>,
}

impl<'a> Seen<'a> {
    ghost use Rattle.std.specs.Prelude.{◌≡◌, not, Some, IfOk, [], ◌∷◌, ◌++◌, List};
    ghost use Rattle.wh_text_bundle.specs.Cut.{RawPart};
    ghost use Rattle.wh_text_bundle.specs.Heading.{heading_of};
    ghost use Rattle.wh_text_bundle.specs.Bundle.{is_repeated, text_of_heading};
    ghost use Rattle.wh_text_bundle.specs.Seen.{Recalls};

    /// Makes the sets at the top, where nothing stands above.
    pub fn new(alloc: Global) -> Self
        ensures { Recalls result [] }
    {
        Seen {
            bundle: BTreeSet::new(alloc),
            night: BTreeSet::new(alloc),
        }
    }

    /// Notes the heading of a part, and returns whether it is no repeat of one above.
    pub fn note(&mut self, heading: &Heading<'a>, text: &'a [u8]) -> Result<bool, AllocError>
        requires { heading_of text.now ≡ Some heading.now }
        ensures fresh { (above : List RawPart) → Recalls self.old above
            → IfOk result (λ fresh. fresh ≡ not (is_repeated heading.now text.now above)) }
        ensures noted { (above : List RawPart) → (part : RawPart) → text_of_heading part ≡ text.now → Recalls self.old above
            → IfOk result (λ _. Recalls self.new (above ++ part ∷ [])) }
    {
        match heading.scope() {
            Scope::Bundle => Ok(self.bundle.insert(text)?),
            Scope::Night => Ok(self.night.insert(text)?),
            Scope::Any => {
                self.night.clear();
                Ok(true)
            }
        }
    }
}
