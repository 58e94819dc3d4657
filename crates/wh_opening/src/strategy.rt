//! Reads the strategy of nights that write none.

ghost use Rattle.std.specs.Prelude.{◌≡◌, ◌⊎◌, option_map, Ok, Err, IfOk, IfErr};
ghost use Rattle.wh_opening.specs.OpeningRead.{strategy_in};

use std::alloc::Global;
use wh_load::{Bundle, Heading, LoadFault, Names, read_strategy};

/// Returns the text of the strategy of nights that write none, if there is one. Each of these nights reads it again, so what it says is not
/// kept.
/// Fails with the first fault of the text. Memory may come at any point.
pub(crate) fn strategy_in(
    alloc: Global,
    bundle: &Bundle<'_>,
    names: &Names,
) -> Result<Option<Vec<u8>>, LoadFault>
    ensures ok { IfOk result (λ own. strategy_in bundle.now names.now ≡ Ok (option_map (λ text. text.items) own)) }
    ensures err { IfErr result (λ f. (f ≡ LoadFault.Memory) ⊎ (strategy_in bundle.now names.now ≡ Err f)) }
{
    let Some(part) = bundle.find(&Heading::Strategy, 0) else {
        return Ok(None);
    };
    let text = part.text(alloc)?;
    read_strategy(alloc, names, &text)?;
    Ok(Some(text.to_vec(alloc)?))
}
