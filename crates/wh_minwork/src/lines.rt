//! The lines of the certificate that a plan of least work comes with.

ghost use Rattle.std.specs.Prelude.{◌≡◌, ◌≢◌, [], length, IfOk, OnErr};
ghost use Rattle.wh_dag.specs.Siblings.{sibling_pairs_of};
ghost use Rattle.wh_strategy.specs.Sizes.{sizes_of};
ghost use Rattle.wh_cert.specs.Certificate.{lines_of};

use std::alloc::{AllocError, Global};
use wh_cert::{PairMins, right_line};
use wh_dag::Shape;
use wh_strategy::Sizes;

/// Makes the lines of a certificate by pairs: each sibling pair with its views in the desired order, and its minimum in rows by weight.
/// Takes no memory where there is no such pair. Takes O(V² C²) for V views of at most C children each.
pub fn pair_mins(alloc: Global, shape: &Shape, sizes: &Sizes) -> Result<PairMins, AllocError>
    requires { length sizes.now ≡ length shape.now.children }
    ensures lines { IfOk result (λ lines. lines ≡ lines_of shape.now.children (sizes_of sizes.now)) }
    ensures memory { OnErr result (sibling_pairs_of shape.now.children ≢ []) }
{
    // The proof needs what the lists of a shape keep to.
    let _lists = shape.child_lists();
    let pairs = shape.sibling_pairs(alloc)?;
    let mut lines = Vec::new(alloc);
    for pair in &pairs {
        lines.push(right_line(sizes, *pair))?;
    }
    Ok(PairMins::new(lines))
}
