//! Compares the lines of a certificate with those of the sibling pairs, which are made one by one and not kept.

ghost use Rattle.std.specs.Prelude.{◌≡◌, ◌↔◌, ◌<◌, ◌≤◌, ◌++◌, ◌∷◌, [], List, ℕ, length, IsTrue, MatchOption, Some, slice_get};
ghost use Rattle.wh_dag.specs.Siblings.{triples_with, triples_of};
ghost use Rattle.wh_strategy.specs.Sizes.{sizes_of};
ghost use Rattle.wh_cert.specs.declared.certificate.PairMin.{PairMin};
ghost use Rattle.wh_cert.specs.Certificate.{DifferFirst, line_of, lines_of};
ghost use Rattle.wh_cert.specs.Inner.Followed.{Follows, lines_among};

use crate::bound::pair_min;
use crate::certificate::PairMin;
use crate::order::comes_first;
use wh_dag::{ChildLists, SiblingPair};
use wh_strategy::Sizes;

/// How many lines are right from the first on, and whether none differs so far.
#[derive(Clone, Copy)]
pub(crate) struct Followed {
    pub(crate) same: usize,
    pub(crate) agrees: bool,
}

/// Returns the line that a certificate is to have for a sibling pair: its views in the desired order, and their minimum.
pub fn right_line(sizes: &Sizes, pair: SiblingPair) -> PairMin
    requires lower { pair.lower < length sizes.now }
    requires higher { pair.higher < length sizes.now }
    ensures { result ≡ line_of (sizes_of sizes.now) pair }
{
    let (first, second) = if comes_first(sizes, pair.lower, pair.higher) {
        (pair.lower, pair.higher)
    } else {
        (pair.higher, pair.lower)
    };
    PairMin {
        parent: pair.parent,
        first,
        second,
        least: pair_min(sizes, first, second),
    }
}

/// Returns whether this line stands there.
fn stands_at(lines: &[PairMin], at: usize, line: PairMin) -> bool
    ensures { IsTrue result ↔ (slice_get lines.now at ≡ Some line) }
{
    at < lines.len() && lines[at] == line
}

/// Goes on by one line that is right.
fn follow(lines: &[PairMin], followed: Followed, line: PairMin) -> Followed
    ensures { (before : List PairMin) → Follows lines.now before followed → Follows lines.now (before ++ line ∷ []) result }
{
    if followed.agrees && stands_at(lines, followed.same, line) {
        Followed {
            same: followed.same + 1,
            agrees: true,
        }
    } else {
        Followed {
            same: followed.same,
            agrees: false,
        }
    }
}

/// Goes on by the lines of the sibling pairs of this parent whose lower view is this one.
fn follow_with(
    children: &ChildLists,
    sizes: &Sizes,
    parent: usize,
    lower: usize,
    lines: &[PairMin],
    followed: Followed,
) -> Followed
    requires same { length sizes.now ≡ length children.now }
    requires parent { parent < length children.now }
    requires lower { lower < length children.now }
    ensures { (before : List PairMin) → Follows lines.now before followed → Follows lines.now (before ++ lines_among children.now (sizes_of sizes.now) (triples_with parent lower (length children.now))) result }
{
    let mut so_far = followed;
    for higher in 0..children.len() {
        let pair = SiblingPair {
            parent,
            lower,
            higher,
        };
        if pair.is_of(children) {
            so_far = follow(lines, so_far, right_line(sizes, pair));
        }
    }
    so_far
}

/// Goes on by the lines of the sibling pairs of this parent.
fn follow_of(
    children: &ChildLists,
    sizes: &Sizes,
    parent: usize,
    lines: &[PairMin],
    followed: Followed,
) -> Followed
    requires same { length sizes.now ≡ length children.now }
    requires parent { parent < length children.now }
    ensures { (before : List PairMin) → Follows lines.now before followed → Follows lines.now (before ++ lines_among children.now (sizes_of sizes.now) (triples_of parent (length children.now))) result }
{
    let mut so_far = followed;
    for lower in 0..children.len() {
        if children.is_over(parent, lower) {
            so_far = follow_with(children, sizes, parent, lower, lines, so_far);
        }
    }
    so_far
}

/// Compares the lines with the right ones, from the first to the last.
fn follow_all(children: &ChildLists, sizes: &Sizes, lines: &[PairMin]) -> Followed
    requires { length sizes.now ≡ length children.now }
    ensures { Follows lines.now (lines_of children.now (sizes_of sizes.now)) result }
{
    let mut so_far = Followed {
        same: 0,
        agrees: true,
    };
    for parent in 0..children.len() {
        so_far = follow_of(children, sizes, parent, lines, so_far);
    }
    so_far
}

/// Returns the first line, counted from 1, that differs from the right one, is missing or is one too many.
pub(crate) fn first_wrong(children: &ChildLists, sizes: &Sizes, lines: &[PairMin]) -> Option<usize>
    requires { length sizes.now ≡ length children.now }
    ensures { MatchOption result (lines.now ≡ lines_of children.now (sizes_of sizes.now)) (λ line. DifferFirst lines.now (lines_of children.now (sizes_of sizes.now)) line) }
{
    let followed = follow_all(children, sizes, lines);
    if followed.agrees && followed.same == lines.len() {
        None
    } else {
        Some(followed.same + 1)
    }
}
