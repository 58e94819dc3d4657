//! Lists of views.
ghost use Rattle.std.specs.Prelude.{◌≡◌};
ghost use Rattle.wh_dag.specs.Shape.{has};

/// Returns whether the view stands in the list. Takes O(n) for n views in the list.
#[tactic(auto, unfolding(crate::specs::Shape::has))]
pub fn has_view(views: &[usize], view: usize) -> bool
    ensures { result ≡ has views.now view }
{
    views.iter().any(|other| *other == view)
}
