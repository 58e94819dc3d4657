//! Certificates, and what is planned with one. A strategy comes with its certificate, so that its reader need not trust the planner.

ghost use Rattle.std.specs.Prelude.{◌≡◌};

use crate::tree::Tree;
use std::marker::Model;
use wh_strategy::Correct;

/// The strategies that a planned one is least among.
#[derive(Debug, Clone, Copy, PartialEq, Eq)]
pub enum Scope {
    /// All correct strategies, with Comps from any number of views.
    All,
    /// The correct strategies whose Comps are each from one view.
    OneWay,
}

/// A line of a certificate: what the Comps of a parent cost at least for two views that it is over.
#[derive(Debug, Clone, Copy, PartialEq, Eq)]
pub struct PairMin {
    /// The view that is over both.
    pub parent: usize,
    /// The one of the two that is to be installed first: the one that comes first in the desired order.
    pub first: usize,
    /// The other one.
    pub second: usize,
    /// The rows by weight that the Comps read of one of the two while the other one changes, in the better order.
    pub least: u128,
}

/// The lines of a certificate by pairs, right or not.
#[derive(Debug, Drop)]
pub struct PairMins {
    lines: Vec<PairMin>,
}

impl Model for PairMins {
    ghost use Rattle.std.specs.Prelude.{List};
    ghost use Rattle.wh_cert.specs.declared.certificate.PairMin.{PairMin};

    ghost Value = { List PairMin };

    ghost view = { λ p. p.lines.items };
}

impl PairMins {
    /// Takes the lines as they are: whether they are right is for `certify` to judge.
    pub fn new(lines: Vec<PairMin>) -> PairMins
        ensures { result ≡ lines.items }
    {
        PairMins { lines }
    }

    /// Returns the lines in their order.
    pub fn as_slice(&self) -> &[PairMin]
        ensures { result.now ≡ self.now }
    {
        &self.lines
    }

    /// Gives the lines back.
    pub fn into_vec(self) -> Vec<PairMin>
        ensures { result.items ≡ self }
    {
        self.lines
    }
}

/// Why no strategy of a scope costs less than the one that it comes with.
#[derive(Debug, Drop)]
pub enum Certificate {
    /// The work is the pair bound, which is made of these minima and of the changes: no correct strategy costs less.
    Pairs(PairMins),
    /// The tree: whatever is decided on the couples, it says why no one-way strategy costs less.
    Search(Tree),
}

/// What a certificate is found to be.
#[derive(Debug, Clone, Copy, PartialEq, Eq)]
pub enum Verdict {
    /// It is accepted: no correct strategy costs less.
    All,
    /// It is accepted: no one-way correct strategy costs less.
    OneWay,
    /// It is not accepted, and this is the place of the fault. By pairs, that is the first line that differs from the right one, counted
    /// from 1, also where it is missing or one too many. It is 0 where all lines are right and the work is not the pair bound. By a tree,
    /// it is the first bad node in preorder, counted from 1.
    Rejected(usize),
}

/// A strategy with its work, the strategies that it is said to be least among, and the certificate for that.
#[derive(Drop)]
pub struct Planned {
    /// The strategy.
    pub correct: Correct,
    /// Its work, in cost times rows by weight.
    pub work: u128,
    /// The strategies that it is least among.
    pub scope: Scope,
    /// The reason why it is least among them, for `certify` to judge.
    pub certificate: Certificate,
}
