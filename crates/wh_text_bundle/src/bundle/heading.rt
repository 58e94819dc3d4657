//! What the line that opens a part says: what the part is, and how often it may stand.
use super::piece::InputSlice;
use super::spelling::{name_after, single_heading};

/// The words of headings that go on with a name.
pub(super) const DATA: &[u8] = b"data";

pub(super) const CHANGES: &[u8] = b"changes";

/// How often a heading may stand.
#[derive(Clone, Copy, Debug, PartialEq, Eq)]
pub enum Scope {
    /// Once in the bundle.
    Bundle,
    /// Once in each night.
    Night,
    /// Any number of times.
    Any,
}

/// What a part is.
#[derive(Debug, Drop)]
pub enum Heading<'a> {
    /// The views, as TOML.
    Catalogue,
    /// The views' sizes, as CSV.
    Sizes,
    /// The strategy of a night.
    Strategy,
    /// A plan.
    Plan,
    /// A schedule of events.
    Schedule,
    /// The end of the night above, and the start of the next.
    Night,
    /// The rows of the base view of this name, as CSV.
    Data(InputSlice<'a>),
    /// The changes of the base view of this name in a night, as CSV.
    Changes(InputSlice<'a>),
}

impl<'a> Heading<'a> {
    ghost use Rattle.std.specs.Prelude.{◌≡◌};
    ghost use Rattle.wh_text_bundle.specs.Heading.{heading_of, is_csv, is_night, same_heading, scope_of, word_of};

    /// Returns the heading that a text spells, or `None`.
    pub fn of(text: &'a [u8]) -> Option<Heading<'a>>
        ensures { result ≡ heading_of text.now }
    {
        if let Some(heading) = single_heading(text) {
            return Some(heading);
        }
        if let Some(name) = name_after(DATA, text) {
            return Some(Heading::Data(InputSlice::new(name)));
        }
        let name = name_after(CHANGES, text)?;
        Some(Heading::Changes(InputSlice::new(name)))
    }

    /// Returns the word that the heading begins with.
    pub fn word(&self) -> &'static [u8]
        ensures { result.now ≡ word_of self.now }
    {
        match self {
            Heading::Catalogue => b"catalogue",
            Heading::Sizes => b"sizes",
            Heading::Strategy => b"strategy",
            Heading::Plan => b"plan",
            Heading::Schedule => b"schedule",
            Heading::Night => b"night",
            Heading::Data(_) => DATA,
            Heading::Changes(_) => CHANGES,
        }
    }

    /// Returns how often the heading may stand.
    pub fn scope(&self) -> Scope
        ensures { result ≡ scope_of self.now }
    {
        match self {
            Heading::Strategy | Heading::Changes(_) => Scope::Night,
            Heading::Night => Scope::Any,
            Heading::Catalogue
            | Heading::Sizes
            | Heading::Plan
            | Heading::Schedule
            | Heading::Data(_) => { Scope::Bundle }
        }
    }

    /// Returns whether the other heading is the same, its name included.
    pub fn is_same(&self, other: &Heading<'_>) -> bool
        ensures { result ≡ same_heading self.now other.now }
    {
        match self {
            Heading::Catalogue => matches!(other, Heading::Catalogue),
            Heading::Sizes => matches!(other, Heading::Sizes),
            Heading::Strategy => matches!(other, Heading::Strategy),
            Heading::Plan => matches!(other, Heading::Plan),
            Heading::Schedule => matches!(other, Heading::Schedule),
            Heading::Night => matches!(other, Heading::Night),
            Heading::Data(name) => match other {
                Heading::Data(found) => name.as_slice() == found.as_slice(),
                _ => false,
            },
            Heading::Changes(name) => match other {
                Heading::Changes(found) => name.as_slice() == found.as_slice(),
                _ => false,
            },
        }
    }

    /// Returns whether the heading opens a night.
    pub fn is_night(&self) -> bool
        ensures { result ≡ is_night self.now }
    {
        matches!(self, Heading::Night)
    }

    /// Returns whether the part is read as CSV, which keeps its CRs.
    pub fn is_csv(&self) -> bool
        ensures { result ≡ is_csv self.now }
    {
        matches!(
            self,
            Heading::Sizes | Heading::Data(_) | Heading::Changes(_)
        )
    }
}
