//! Finds the parts of a night, without going over those of the others.
ghost use Rattle.std.specs.Prelude.{◌≡◌, ◌≤◌, count_by, filter, find, length, nat_le, option_copied};
ghost use Rattle.std.specs.List.Sorted.{IsNonDecreasingBy};
ghost use Rattle.wh_text_bundle.specs.Find.{parts_of_night};
ghost use Rattle.wh_text_bundle.specs.Heading.{is_night, same_heading};

use super::heading::Heading;
use super::part::Part;

/// Returns the parts from a night on.
fn parts_from<'b, 'a>(parts: &'b [Part<'a>], night: usize) -> &'b [Part<'a>]
    requires { IsNonDecreasingBy (λ p. p.night) parts.now }
    ensures parts { result.now ≡ filter (λ p. nat_le night p.night) parts.now }
    ensures ordered { IsNonDecreasingBy (λ p. p.night) result.now }
{
    &parts[parts.partition_point(|part| part.night < night)..]
}

/// Returns the parts up to a night.
fn parts_to<'b, 'a>(parts: &'b [Part<'a>], night: usize) -> &'b [Part<'a>]
    requires { IsNonDecreasingBy (λ p. p.night) parts.now }
    ensures { result.now ≡ filter (λ p. nat_le p.night night) parts.now }
{
    &parts[..parts.partition_point(|part| part.night <= night)]
}

/// Returns the parts of a night, found by halving, as there may be many nights.
pub fn parts_of_night<'b, 'a>(parts: &'b [Part<'a>], night: usize) -> &'b [Part<'a>]
    requires { IsNonDecreasingBy (λ p. p.night) parts.now }
    ensures { result.now ≡ parts_of_night night parts.now }
{
    parts_to(parts_from(parts, night), night)
}

/// Returns how many nights the parts open.
pub fn count_nights(parts: &[Part<'_>]) -> usize
    ensures bound { result ≤ length parts.now }
    ensures count { result ≡ count_by (λ p. is_night p.heading) parts.now }
{
    parts.iter().filter(|part| part.heading.is_night()).count()
}

/// Returns the first part with this heading.
pub fn first_with<'b, 'a>(parts: &'b [Part<'a>], heading: &Heading<'_>) -> Option<&'b Part<'a>>
    ensures { option_copied result ≡ find (λ p. same_heading p.heading heading.now) parts.now }
{
    parts.iter().find(|part| part.heading.is_same(heading))
}
