//! Finds the parts of a bundle, and their texts.

ghost use Rattle.std.specs.Prelude.{◌≡◌, ◌⊎◌, Ok, Err, IfOk, IfErr};
ghost use Rattle.std.specs.Cow.{cow_slice_items};
ghost use Rattle.wh_load.specs.ReadingParts.{parts_in, text_in};

use std::alloc::Global;
use std::borrow::CowSlice;
use wh_text::{LoadFault, Word};
use wh_text_bundle::{Bundle, Heading, Nights, PartFault, parts};

/// Reads the parts of a bundle, with these nights.
/// Fails with the bundle's first fault from the top. Memory may come at any point.
pub fn bundle_of<'a>(
    alloc: Global,
    bytes: &'a [u8],
    nights: Nights,
) -> Result<Bundle<'a>, LoadFault>
    ensures ok { IfOk result (λ bundle. parts_in nights bytes.now ≡ Ok bundle) }
    ensures err { IfErr result (λ f. (f ≡ LoadFault.Memory) ⊎ (parts_in nights bytes.now ≡ Err f)) }
{
    parts(alloc, bytes, nights).map_err(|fault| match fault {
        PartFault::Part(word) => LoadFault::Part(word),
        PartFault::Memory => LoadFault::Memory,
    })
}

/// Returns the text of the part with this heading, in this night where it may stand in each.
/// Fails with a fault that names a missing part by the heading's first word. Memory may come at any point.
pub fn text_of<'a>(
    alloc: Global,
    bundle: &Bundle<'a>,
    heading: &Heading<'_>,
    night: usize,
) -> Result<CowSlice<'a, u8>, LoadFault>
    ensures ok { IfOk result (λ text. text_in bundle.now heading.now night ≡ Ok (cow_slice_items text)) }
    ensures err { IfErr result (λ f. (f ≡ LoadFault.Memory) ⊎ (text_in bundle.now heading.now night ≡ Err f)) }
{
    match bundle.find(heading, night) {
        Some(part) => Ok(part.text(alloc)?),
        None => Err(LoadFault::Part(Word::new(alloc, heading.word())?)),
    }
}
