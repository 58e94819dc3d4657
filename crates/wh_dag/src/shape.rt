//! A shape: the names of the views, and which views each is over.
ghost use Rattle.std.specs.Prelude.{◌≡◌, ◌≢◌, ◌<◌, ◌⊎◌, ◌==◌, ◌↔◌, [], length, map, IfOk, IfErr, OnOk, OnErr, IsTrue, Some, None, vec_len};
ghost use Rattle.wh_dag.specs.Shape.{IsShape, children_of};
ghost use Rattle.wh_dag.specs.Kinds.{IsTree, IsUniform};
ghost use Rattle.wh_dag.specs.Level.{level_of, level_over};
ghost use Rattle.wh_dag.specs.Parents.{parents_of};
ghost use Rattle.wh_dag.specs.Siblings.{couples_of, sibling_pairs_of};
ghost use Rattle.wh_dag.specs.Written.{texts, written, name_of, children_written};
ghost use Rattle.wh_dag.specs.Fault.{first_fault};
ghost use Rattle.wh_dag.specs.WellFormed.{IsWellFormed};

use crate::child_lists::ChildLists;
use crate::fault::ShapeFault;
use crate::siblings::{Couple, SiblingPair};
use crate::{kinds, level, parents, siblings, written};
use std::alloc::{AllocError, Global};
use std::marker::Model;

/// The views of a warehouse by name, each with the views that it is over. A view is its number,
/// counted from 0, and each is over views of lower numbers.
#[derive(Debug, Drop)]
pub struct Shape {
    names: Vec<String>,
    children: ChildLists,
    levels: Vec<usize>,
}

impl Model for Shape {
    ghost use Rattle.wh_dag.specs.Shape.{Views};
    ghost use Rattle.wh_dag.specs.Inner.Kept.{IsKept};
    ghost use Rattle.wh_dag.specs.Siblings.{couples_of, sibling_pairs_of};
    ghost use Rattle.wh_dag.specs.Written.{texts};

    ghost Value = { Views };

    ghost view = { λ s. record { names = texts s.names.items; children = s.children } };

    ghost invariant = { λ s. IsKept (texts s.names.items) s.children s.levels.items };
}

impl Shape {
    /// Reads the shape of these views, where `over` has for each view None (a base view) or the names of its children. A name that two
    /// views have means the first of them.
    ///
    /// The fault is the first one, view by view: TooMany (the 65th view), Duplicate, EmptyOver, TooMany (more than 6 children), then child
    /// by child Unknown, Forward, Repeated. Memory may come in place of any of them, but not where there is no view. Makes O(V² C)
    /// comparisons of names for V views of at most C children each.
    pub fn new(
        alloc: Global,
        names: Vec<String>,
        over: Vec<Option<Vec<String>>>,
    ) -> Result<Shape, ShapeFault>
        requires { vec_len names ≡ vec_len over }
        ensures names { IfOk result (λ s. s.names ≡ texts names.items) }
        ensures children { IfOk result (λ s.
            s.children ≡ map (children_written (texts names.items)) (written over.items)) }
        ensures faultless { OnOk result (first_fault (texts names.items) (written over.items) ≡ None) }
        ensures well_formed { OnOk result (IsWellFormed (texts names.items) (written over.items)) }
        ensures err { IfErr result (λ fault. (fault ≡ ShapeFault.Memory)
            ⊎ (first_fault (texts names.items) (written over.items) ≡ Some fault)) }

        // Without a view no memory is taken.
        ensures memory { OnErr result (0 < vec_len names) }
    {
        let lists = written::child_lists(alloc, &names, &over)?;
        let children = ChildLists::from_lists(lists);
        let levels = level::levels(alloc, &children)?;
        Ok(Shape {
            names,
            children,
            levels,
        })
    }

    /// Returns how many views the shape has.
    pub fn len(&self) -> usize
        ensures len { result ≡ length self.now.children }
        ensures named { length self.now.names ≡ length self.now.children }
        ensures shape { IsShape self.now.children }
    {
        self.children.len()
    }

    /// Returns whether the shape has no view.
    pub fn is_empty(&self) -> bool
        ensures { result ≡ (length self.now.children == 0) }
    {
        self.children.is_empty()
    }

    /// Returns the name of the view; a number that is no view's has the empty one.
    pub fn name(&self, view: usize) -> &str
        ensures { result.now ≡ name_of self.now.names view }
    {
        match self.names.get(view) {
            Some(name) => name.as_str(),
            None => "",
        }
    }

    /// Returns the views that this one is over, in the order written: none for a base view.
    pub fn children(&self, view: usize) -> &[usize]
        requires { view < length self.now.children }
        ensures children { result.now ≡ children_of self.now.children view }
        ensures shape { IsShape self.now.children }
    {
        self.children.of(view)
    }

    /// Returns the child lists of all views.
    pub fn child_lists(&self) -> &ChildLists
        ensures lists { result.now ≡ self.now.children }
        ensures shape { IsShape self.now.children }
    {
        &self.children
    }

    /// Returns the views over this one, rising. Takes no memory where there is none. Takes O(V C) for V views of at most C children each.
    pub fn parents(&self, alloc: Global, view: usize) -> Result<Vec<usize>, AllocError>
        ensures parents { IfOk result (λ parents. parents.items ≡ parents_of self.now.children view) }
        ensures memory { OnErr result (parents_of self.now.children view ≢ []) }
    {
        parents::parents_of_view(alloc, &self.children, view)
    }

    /// Returns the sibling pairs (parent, lower, higher), rising: for each view all two views that it is over. Takes no memory where there
    /// is none. Takes O(V² C²) for V views of at most C children each.
    pub fn sibling_pairs(&self, alloc: Global) -> Result<Vec<SiblingPair>, AllocError>
        ensures pairs { IfOk result (λ pairs. pairs.items ≡ sibling_pairs_of self.now.children) }
        ensures memory { OnErr result (sibling_pairs_of self.now.children ≢ []) }
    {
        siblings::sibling_pairs(alloc, &self.children)
    }

    /// Returns the couples (lower, higher), rising: all two views that have a common parent, each couple once. Takes no memory where there
    /// is none. Takes O(V³ C) for V views of at most C children each.
    pub fn couples(&self, alloc: Global) -> Result<Vec<Couple>, AllocError>
        ensures couples { IfOk result (λ couples. couples.items ≡ couples_of self.now.children) }
        ensures memory { OnErr result (couples_of self.now.children ≢ []) }
    {
        siblings::couples(alloc, &self.children)
    }

    /// Returns the level of the view: 0 for a base, else one more than its highest child's. Takes O(1).
    pub fn level(&self, view: usize) -> usize
        requires { view < length self.now.children }
        ensures value { result ≡ level_of self.now.children view }
        ensures rule { level_of self.now.children view
            ≡ level_over (map (level_of self.now.children) (children_of self.now.children view)) }
    {
        self.levels[view]
    }

    /// Returns whether no view has two parents. Takes no memory. Takes O(V C) for V views of at most C children each.
    pub fn is_tree(&self) -> bool
        ensures { IsTrue result ↔ IsTree self.now.children }
    {
        kinds::is_tree(&self.children)
    }

    /// Returns whether each view of level 1 or more is over views of the level below it only. Takes no memory. Takes O(V C) for V views of
    /// at most C children each.
    pub fn is_uniform(&self) -> bool
        ensures { IsTrue result ↔ IsUniform self.now.children }
    {
        kinds::is_uniform(&self.children, &self.levels)
    }
}
