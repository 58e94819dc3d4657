//! Judges certificates, without a search and without trust in whoever wrote one.

ghost use Rattle.std.specs.Prelude.{◌≡◌, ◌≤◌, ℕ, List, length};
ghost use Rattle.wh_strategy.specs.declared.expression.Expression.{Expression};
ghost use Rattle.wh_dag.specs.Shape.{IsShape};
ghost use Rattle.wh_strategy.specs.Prices.{Prices, prices_of};
ghost use Rattle.wh_strategy.specs.Rules.{IsCorrect, IsOneWay};
ghost use Rattle.wh_strategy.specs.declared.sizes.Size.{Size};
ghost use Rattle.wh_strategy.specs.Sizes.{sizes_of};
ghost use Rattle.wh_strategy.specs.Work.{work_of};
ghost use Rattle.wh_cert.specs.declared.certificate.Certificate.{Certificate};
ghost use Rattle.wh_cert.specs.declared.certificate.Verdict.{Verdict};
ghost use Rattle.wh_cert.specs.Certificate.{IsJudged};
ghost use Rattle.wh_cert.specs.Search.{IsAcceptedTree};
ghost use Rattle.wh_cert.specs.Tree.{CaseTree};

use crate::bound::pair_bound;
use crate::certificate::{Certificate, PairMin, Verdict};
use crate::lines::first_wrong;
use crate::search::first_bad;
use crate::tree::Tree;
use wh_dag::Shape;
use wh_strategy::{Correct, Costs, Sizes, work};

fn judge_pairs(
    shape: &Shape,
    sizes: &Sizes,
    costs: Costs,
    correct: &Correct,
    lines: &[PairMin],
) -> Verdict
    requires same { correct.now.children ≡ shape.now.children }
    requires sizes { length sizes.now ≡ length shape.now.children }
    ensures judged { IsJudged shape.now.children (sizes_of sizes.now) (prices_of costs) (work_of shape.now.children (sizes_of sizes.now) (prices_of costs) correct.now.list) (Certificate.Pairs lines.now) result }
    ensures least { result ≡ Verdict.All → (list : List Expression) → IsCorrect shape.now.children list → work_of shape.now.children (sizes_of sizes.now) (prices_of costs) correct.now.list ≤ work_of shape.now.children (sizes_of sizes.now) (prices_of costs) list }
{
    if let Some(line) = first_wrong(shape.child_lists(), sizes, lines) {
        return Verdict::Rejected(line);
    }
    if work(shape, sizes, costs, correct) == pair_bound(shape, sizes, costs) {
        Verdict::All
    } else {
        Verdict::Rejected(0)
    }
}

fn judge_tree(shape: &Shape, sizes: &Sizes, costs: Costs, correct: &Correct, tree: &Tree) -> Verdict
    requires same { correct.now.children ≡ shape.now.children }
    requires sizes { length sizes.now ≡ length shape.now.children }
    ensures judged { IsJudged shape.now.children (sizes_of sizes.now) (prices_of costs) (work_of shape.now.children (sizes_of sizes.now) (prices_of costs) correct.now.list) (Certificate.Search tree.now) result }
    ensures one_way { result ≡ Verdict.OneWay → (list : List Expression) → IsCorrect shape.now.children list → IsOneWay list → work_of shape.now.children (sizes_of sizes.now) (prices_of costs) correct.now.list ≤ work_of shape.now.children (sizes_of sizes.now) (prices_of costs) list }
{
    // The proof needs what the lists of a shape and the nodes of a tree keep to.
    let (_lists, _nodes) = (shape.child_lists(), tree.as_slice());
    let work = work(shape, sizes, costs, correct);
    match first_bad(shape, sizes, costs, work, tree) {
        Some(place) => Verdict::Rejected(place),
        None => Verdict::OneWay,
    }
}

/// Judges the certificate of a strategy at these sizes and costs. Takes no memory. Takes O(V² C²) for lines by pairs, with V views of at
/// most C children each. For a tree it takes O(N (V C² + D) + K (C + D)), with N nodes at most D deep, and K expressions in their cycles.
pub fn certify(
    shape: &Shape,
    sizes: &Sizes,
    costs: Costs,
    correct: &Correct,
    certificate: &Certificate,
) -> Verdict
    requires same { correct.now.children ≡ shape.now.children }
    requires sizes { length sizes.now ≡ length shape.now.children }
    ensures judged { IsJudged shape.now.children (sizes_of sizes.now) (prices_of costs) (work_of shape.now.children (sizes_of sizes.now) (prices_of costs) correct.now.list) certificate.now result }
    ensures least { result ≡ Verdict.All → (list : List Expression) → IsCorrect shape.now.children list → work_of shape.now.children (sizes_of sizes.now) (prices_of costs) correct.now.list ≤ work_of shape.now.children (sizes_of sizes.now) (prices_of costs) list }
    ensures one_way { result ≡ Verdict.OneWay → (list : List Expression) → IsCorrect shape.now.children list → IsOneWay list → work_of shape.now.children (sizes_of sizes.now) (prices_of costs) correct.now.list ≤ work_of shape.now.children (sizes_of sizes.now) (prices_of costs) list }
{
    match certificate {
        Certificate::Pairs(lines) => judge_pairs(shape, sizes, costs, correct, lines.as_slice()),
        Certificate::Search(tree) => judge_tree(shape, sizes, costs, correct, tree),
    }
}

/// A law of the definitions: where a tree is accepted for a work, no correct one-way strategy costs less.
pub fn no_one_way_strategy_is_below_a_tree()
    ensures { (shape : List (List ℕ)) (sizes : ℕ → Size) (prices : Prices) (work : ℕ) (tree : CaseTree) (list : List Expression) → IsShape shape → IsAcceptedTree shape sizes prices work tree → IsCorrect shape list → IsOneWay list → work ≤ work_of shape sizes prices list }
{}

/// A law of the definitions: at these costs and a work, a certificate has one verdict only.
pub fn one_verdict()
    ensures { (shape : List (List ℕ)) (sizes : ℕ → Size) (prices : Prices) (work : ℕ) (certificate : Certificate) (verdict other : Verdict) → IsJudged shape sizes prices work certificate verdict → IsJudged shape sizes prices work certificate other → verdict ≡ other }
{}
