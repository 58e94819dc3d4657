//! Reads a written shape: names in place of numbers, view by view up to the first fault.
ghost use Rattle.std.specs.Prelude.{◌≡◌, ◌<◌, ◌⊎◌, [], length, map, take, IfOk, IfErr, OnOk, OnErr, Some, None};
ghost use Rattle.wh_dag.specs.Lists.{lists_of};
ghost use Rattle.wh_dag.specs.Written.{texts, written, written_list, name_of, is_named, number_of, numbers_of, children_written};
ghost use Rattle.wh_dag.specs.Fault.{child_fault, children_fault, over_fault, view_fault, first_fault};

use crate::fault::ShapeFault;
use crate::limits::{MAX_CHILDREN, MAX_VIEWS};
use crate::name::Name;
use std::alloc::{AllocError, Global};

fn name_from(alloc: Global, text: &str) -> Result<Name, AllocError>
    ensures { IfOk result (λ name. name ≡ text.now) }
{
    Ok(Name::new(String::from_str(alloc, text)?))
}

fn first_named(names: &[String], name: &str) -> Option<usize>
    ensures { result ≡ number_of (texts names.now) name.now }
{
    names.iter().position(|n| n.as_str() == name)
}

fn stands_in(names: &[String], name: &str) -> bool
    ensures { result ≡ is_named (texts names.now) name.now }
{
    names.iter().any(|n| n.as_str() == name)
}

// Whether a view of a lower number has the name of this one.
fn is_again(names: &[String], view: usize) -> bool
    requires { view < length names.now }
    ensures { result ≡ is_named (take view (texts names.now)) (name_of (texts names.now) view) }
{
    stands_in(&names[..view], names[view].as_str())
}

fn own_name(alloc: Global, names: &[String], view: usize) -> Result<Name, AllocError>
    requires { view < length names.now }
    ensures { IfOk result (λ name. name ≡ name_of (texts names.now) view) }
{
    name_from(alloc, names[view].as_str())
}

// The number of the child that stands at this place of the view's list.
fn child_number(
    alloc: Global,
    names: &[String],
    view: usize,
    before: &[String],
    child: &str,
) -> Result<usize, ShapeFault>
    ensures ok { IfOk result (λ number. number_of (texts names.now) child.now ≡ Some number) }
    ensures faultless { OnOk result (
        child_fault (texts names.now) view (texts before.now) child.now ≡ None) }
    ensures err { IfErr result (λ fault. (fault ≡ ShapeFault.Memory)
        ⊎ (child_fault (texts names.now) view (texts before.now) child.now ≡ Some fault)) }
{
    let Some(number) = first_named(names, child) else {
        let child = name_from(alloc, child)?;
        return Err(ShapeFault::Unknown { view, child });
    };
    if view <= number {
        let child = name_from(alloc, child)?;
        return Err(ShapeFault::Forward { view, child });
    }
    if stands_in(before, child) {
        let child = name_from(alloc, child)?;
        return Err(ShapeFault::Repeated { view, child });
    }
    Ok(number)
}

fn numbers(
    alloc: Global,
    names: &[String],
    view: usize,
    children: &[String],
) -> Result<Vec<usize>, ShapeFault>
    ensures ok { IfOk result (λ own. own.items ≡ numbers_of (texts names.now) (texts children.now)) }
    ensures faultless { OnOk result (children_fault (texts names.now) view [] (texts children.now) ≡ None) }
    ensures err { IfErr result (λ fault. (fault ≡ ShapeFault.Memory)
        ⊎ (children_fault (texts names.now) view [] (texts children.now) ≡ Some fault)) }
{
    let mut own = Vec::new(alloc);
    for (place, child) in children.iter().enumerate() {
        let number = child_number(alloc, names, view, &children[..place], child.as_str())?;
        own.push(number)?;
    }
    Ok(own)
}

fn children_of_list(
    alloc: Global,
    names: &[String],
    view: usize,
    children: &[String],
) -> Result<Vec<usize>, ShapeFault>
    requires { view < length names.now }
    ensures ok { IfOk result (λ own. own.items ≡ numbers_of (texts names.now) (texts children.now)) }
    ensures faultless { OnOk result (over_fault (texts names.now) view (Some (texts children.now)) ≡ None) }
    ensures err { IfErr result (λ fault. (fault ≡ ShapeFault.Memory)
        ⊎ (over_fault (texts names.now) view (Some (texts children.now)) ≡ Some fault)) }
{
    if children.is_empty() {
        let name = own_name(alloc, names, view)?;
        return Err(ShapeFault::EmptyOver { view, name });
    }
    if MAX_CHILDREN < children.len() {
        let name = own_name(alloc, names, view)?;
        return Err(ShapeFault::TooMany { view, name });
    }
    numbers(alloc, names, view, children)
}

fn children_of_view(
    alloc: Global,
    names: &[String],
    view: usize,
    over: &Option<Vec<String>>,
) -> Result<Vec<usize>, ShapeFault>
    requires { view < length names.now }
    ensures ok { IfOk result (λ own.
        own.items ≡ children_written (texts names.now) (written_list over.now)) }
    ensures faultless { OnOk result (view_fault (texts names.now) view (written_list over.now) ≡ None) }
    ensures err { IfErr result (λ fault. (fault ≡ ShapeFault.Memory)
        ⊎ (view_fault (texts names.now) view (written_list over.now) ≡ Some fault)) }
{
    if view >= MAX_VIEWS {
        let name = own_name(alloc, names, view)?;
        return Err(ShapeFault::TooMany { view, name });
    }
    if is_again(names, view) {
        let name = own_name(alloc, names, view)?;
        return Err(ShapeFault::Duplicate { view, name });
    }
    match over {
        None => Ok(Vec::new(alloc)),
        Some(children) => children_of_list(alloc, names, view, children),
    }
}

/// Returns the children of each view, by their numbers, or the first fault.
pub(crate) fn child_lists(
    alloc: Global,
    names: &[String],
    over: &[Option<Vec<String>>],
) -> Result<Vec<Vec<usize>>, ShapeFault>
    requires { length names.now ≡ length over.now }
    ensures ok { IfOk result (λ lists.
        lists_of lists.items ≡ map (children_written (texts names.now)) (written over.now)) }
    ensures faultless { OnOk result (first_fault (texts names.now) (written over.now) ≡ None) }
    ensures err { IfErr result (λ fault. (fault ≡ ShapeFault.Memory)
        ⊎ (first_fault (texts names.now) (written over.now) ≡ Some fault)) }
    ensures memory { OnErr result (0 < length over.now) }
{
    let mut lists = Vec::new(alloc);
    for (view, written) in over.iter().enumerate() {
        let own = children_of_view(alloc, names, view, written)?;
        lists.push(own)?;
    }
    Ok(lists)
}
