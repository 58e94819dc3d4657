//! Says where to look for a row among rows that rise, so that a search takes few looks where rows lie evenly.

ghost use Rattle.std.specs.Prelude.{◌<◌, ◌≤◌};

/// Returns the place to ask next of those from `low` up to `high`: the one that is thought likely, else the middle.
pub(crate) fn place_to_ask(low: usize, high: usize, likely: usize) -> usize
    requires { low < high }
    ensures from { low ≤ result }
    ensures below { result < high }
{
    if low <= likely && likely < high {
        return likely;
    }
    low + (high - low) / 2
}

/// How many rows there have to be before it is reckoned where one of them stands.
const SOME: usize = 8;

/// Returns about where a row stands among `count` rows, of which `first` and `last` are the ends. It is right where first cells lie evenly,
/// as numbers that are given out one after another do. It makes a search faster or slower and changes no answer.
pub(crate) fn likely_place(row: &[i64], first: &[i64], last: &[i64], count: usize) -> usize
    ensures { result ≤ count }
{
    if count < SOME {
        return count / 2;
    }
    let (Some(cell), Some(least), Some(most)) = (row.first(), first.first(), last.first()) else {
        return 0;
    };
    if cell <= least {
        return 0;
    }
    if cell >= most {
        return count - 1;
    }
    let above = cell.abs_diff(*least);
    let whole = most.abs_diff(*least);
    match above.checked_mul(count as u64 - 1) {
        Some(product) => count.min((product / whole) as usize),
        None => count / 2,
    }
}

/// How far a search goes on the second time, and how many times further each time after it.
const LEAP: usize = 16;

/// Makes the step of a search longer. Places near the likely one are asked first, so that one that is nearly right is made right by a few
/// looks.
pub(crate) fn longer(step: usize) -> usize {
    step.saturating_mul(LEAP)
}
