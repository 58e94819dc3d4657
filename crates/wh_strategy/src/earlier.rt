//! Tables of what stands earlier than a place, so that a list is gone over once and not again at each of its places.

ghost use Rattle.std.specs.Prelude.{◌≡◌, ◌||◌, ◌<◌, ℕ, List, [], ◌∷◌, ◌++◌, false, length, slice_index_or};
ghost use Rattle.wh_dag.specs.Shape.{has};
ghost use Rattle.std.specs.List.{list_any};
ghost use Rattle.wh_strategy.specs.Earlier.{Tells, TellsInstalled, TellsTaken, TellsRead};
ghost use Rattle.wh_strategy.specs.Tests.{is_installed, is_taken, reads};
ghost use Rattle.wh_strategy.specs.declared.expression.Expression.{Expression};

use crate::expression::Expression;
use wh_dag::{MAX_VIEWS, has_view};

/// A table of the views that are installed earlier.
#[derive(Drop)]
pub struct Installed {
    flags: [bool; MAX_VIEWS],
}

impl Installed {
    /// Makes the table before the first place, where no view is installed.
    pub fn new() -> Installed
        ensures { TellsInstalled result.flags [] }
    {
        Installed {
            flags: [false; MAX_VIEWS],
        }
    }

    /// Notes the expression that follows. Takes O(1).
    pub fn note(&mut self, e: &Expression)
        ensures { (before : List Expression) → TellsInstalled self.old.flags before → TellsInstalled self.new.flags (before ++ e.now ∷ []) }
    {
        if let Expression::Inst(u) = e {
            if *u < MAX_VIEWS {
                self.flags[*u] = true;
            }
        }
    }

    /// Returns whether one of these, which were noted, installs u. Takes O(1) for a view of a shape.
    pub fn has(&self, before: &[Expression], u: usize) -> bool
        requires { TellsInstalled self.now.flags before.now }
        ensures { result ≡ is_installed before.now u }
    {
        if u < MAX_VIEWS {
            self.flags[u]
        } else {
            installs(before, u)
        }
    }
}

/// Returns whether one of these installs u.
fn installs(before: &[Expression], u: usize) -> bool
    ensures { result ≡ is_installed before.now u }
{
    before
        .iter()
        .any(|e| matches!(e, Expression::Inst(v) if *v == u))
}

/// A table of the sources that earlier Comps of each view took.
#[derive(Drop)]
pub struct Taken {
    rows: [[bool; MAX_VIEWS]; MAX_VIEWS],
}

impl Taken {
    /// Makes the table before the first place, where no source is taken.
    pub fn new() -> Taken
        ensures { TellsTaken result.rows [] }
    {
        Taken {
            rows: [[false; MAX_VIEWS]; MAX_VIEWS],
        }
    }

    /// Notes the expression that follows. Takes O(S) for S sources.
    pub fn note(&mut self, e: &Expression)
        ensures { (before : List Expression) → TellsTaken self.old.rows before → TellsTaken self.new.rows (before ++ e.now ∷ []) }
    {
        if let Expression::Comp(v, ys) = e {
            if *v < MAX_VIEWS {
                mark(&mut self.rows[*v], ys.as_slice());
            }
        }
    }

    /// Returns whether one of these, which were noted, is a Comp of v from u and perhaps others. Takes O(1) for views of a shape.
    pub fn has(&self, before: &[Expression], v: usize, u: usize) -> bool
        requires { TellsTaken self.now.rows before.now }
        ensures { result ≡ is_taken before.now v u }
    {
        if v < MAX_VIEWS && u < MAX_VIEWS {
            self.rows[v][u]
        } else {
            takes(before, v, u)
        }
    }
}

fn mark(row: &mut [bool; MAX_VIEWS], views: &[usize])
    ensures many { length row.new ≡ length row.old }
    ensures marked { (u : ℕ) → u < 64 → slice_index_or row.new u false ≡ (slice_index_or row.old u false || has views.now u) }
{
    for u in views {
        if *u < MAX_VIEWS {
            row[*u] = true;
        }
    }
}

/// Returns whether one of these is a Comp of v from u and perhaps others.
fn takes(before: &[Expression], v: usize, u: usize) -> bool
    ensures { result ≡ is_taken before.now v u }
{
    before.iter().any(|e| match e {
        Expression::Comp(w, ys) => *w == v && has_view(ys.as_slice(), u),
        Expression::Inst(_) => false,
    })
}

/// A table of the views whose changes earlier Comps read.
#[derive(Drop)]
pub struct Read {
    flags: [bool; MAX_VIEWS],
}

impl Read {
    /// Makes the table before the first place, where no view is read.
    pub fn new() -> Read
        ensures { TellsRead result.flags [] }
    {
        Read {
            flags: [false; MAX_VIEWS],
        }
    }

    /// Notes the expression that follows. Takes O(S) for S sources.
    pub fn note(&mut self, e: &Expression)
        ensures { (before : List Expression) → TellsRead self.old.flags before → TellsRead self.new.flags (before ++ e.now ∷ []) }
    {
        if let Expression::Comp(_, ys) = e {
            mark(&mut self.flags, ys.as_slice());
        }
    }

    /// Returns whether one of these, which were noted, reads v's changes. Takes O(1) for a view of a shape.
    pub fn has(&self, before: &[Expression], v: usize) -> bool
        requires { TellsRead self.now.flags before.now }
        ensures { result ≡ list_any (reads v) before.now }
    {
        if v < MAX_VIEWS {
            self.flags[v]
        } else {
            reads_view(before, v)
        }
    }
}

/// Returns whether one of these reads v's changes.
fn reads_view(before: &[Expression], v: usize) -> bool
    ensures { result ≡ list_any (reads v) before.now }
{
    before.iter().any(|e| match e {
        Expression::Comp(_, ys) => has_view(ys.as_slice(), v),
        Expression::Inst(_) => false,
    })
}

/// All tables of what stands earlier than a place.
#[derive(Drop)]
pub struct Tables {
    /// The views that are installed earlier.
    pub installed: Installed,
    /// The sources that earlier Comps took.
    pub taken: Taken,
    /// The views that earlier Comps read.
    pub read: Read,
}

impl Tables {
    /// Makes the tables before the first place, where nothing stands earlier.
    pub fn new() -> Tables
        ensures { Tells result [] }
    {
        Tables {
            installed: Installed::new(),
            taken: Taken::new(),
            read: Read::new(),
        }
    }

    /// Notes the expression that follows, in each table.
    pub fn note(&mut self, e: &Expression)
        ensures { (before : List Expression) → Tells self.old before → Tells self.new (before ++ e.now ∷ []) }
    {
        self.installed.note(e);
        self.taken.note(e);
        self.read.note(e);
    }
}
