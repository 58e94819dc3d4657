//! Says what each place at the store knows, and what each step tells it.

ghost use Rattle.std.specs.Prelude.{◌≡◌, None, Some};
ghost use Rattle.wh_desk.specs.Rules.{Sees};
ghost use Rattle.wh_desk.specs.Inner.Rules.{Holds};

use crate::history::Told;
use crate::kept::Kept;
use atomic_table::{Join, Split};
use crossbeam_utils::rule::{Outcome, Protocol};

/// The rule of a place: it knows the list that it saw last, if it saw one.
pub struct Published;

impl Protocol<Kept, Option<Told>> for Published {
    ghost holds = { Holds };

    ghost first = { None };
}

/// The step in which the writer shows a copy.
pub struct Puts;

impl Outcome<Kept, Option<Told>> for Puts {
    ghost then = { λ v x y w. w ≡ Some y.front };
}

/// The step in which a reader takes the copy that is shown.
pub struct Enters;

impl Outcome<Kept, Option<Told>> for Enters {
    ghost then = { λ v x y w. Sees v x w };
}

/// The step in which a new reader is told which list is shown.
pub struct Tells;

impl Split<Option<Told>> for Tells {
    ghost left = { λ v. v };

    ghost right = { λ v. v };
}

impl Join<Option<Told>> for Tells {
    ghost both = { λ v w. w };

    ghost spent = { None };
}
