//! Reads the rows of small parts beside each other.
//!
//! A small part is not worth several threads. Where there are several of them, each is read by one thread while others read others, as if
//! no text had a number yet. So it does not matter who is faster: the texts get their numbers later, in the order of the views.

ghost use Rattle.std.specs.Prelude.{◌≡◌, ◌++◌, ℕ, List, All, IfSome, map, option_map, option_to_list};
ghost use Rattle.wh_text_bundle.specs.declared.bundle.part.Part.{Part};
ghost use Rattle.wh_text_catalogue.specs.Definitions.{ViewOf, shown_view};
ghost use Rattle.wh_load.specs.ReadingNight.{Rows as ReadRows};
ghost use Rattle.wh_load.specs.Inner.ReadingRows.{IsAheadOf, shown_rows};

use super::found::{Rows, part_of};
use super::views::KnownViews;
use std::alloc::Global;
use std::mem;
use std::thread::Threads;
use wh_text_bundle::Bundle;
use wh_text_tables::{RowsAhead, read_ahead};
use wh_threads::{ThreadBudget, Work};

/// The rows of a view that were read ahead.
#[derive(Drop)]
pub struct ViewAhead {
    /// The view's number.
    pub view: usize,
    pub rows: RowsAhead,
}

/// A part that is small.
#[derive(Clone, Copy)]
struct SmallPart {
    /// The number of its view.
    view: usize,
    bytes: usize,
}

/// Reads the small parts of these rows ahead, by several threads, the last view first in the list. The list is empty where no two threads
/// are worth it, or memory is refused.
pub fn read_small_parts<R: Threads + Sync>(
    budget: &ThreadBudget<'_, R>,
    bundle: &Bundle<'_>,
    rows: Rows,
    known: &KnownViews<'_>,
) -> Vec<ViewAhead>
    ensures { All (IsAheadOf (shown_rows rows) bundle.now known.now.names.now (map shown_view known.now.views.now)) result.items }
{
    match read_beside(budget, bundle, rows, known) {
        Some(ahead) => ahead,
        None => Vec::new(budget.alloc),
    }
}

/// What was read ahead by several threads, if they are worth it and there is memory.
fn read_beside<R: Threads + Sync>(
    budget: &ThreadBudget<'_, R>,
    bundle: &Bundle<'_>,
    rows: Rows,
    known: &KnownViews<'_>,
) -> Option<Vec<ViewAhead>>
    ensures { IfSome result (λ all. All (IsAheadOf (shown_rows rows) bundle.now known.now.names.now (map shown_view known.now.views.now)) all.items) }
{
    let groups = groups_in(budget, bundle, rows, known)?;
    let alloc = budget.alloc;
    let read = move |views: &Vec<usize>| -> Option<Vec<ViewAhead>>
        ensures { IfSome result (λ all. All (IsAheadOf (shown_rows rows) bundle.entry.now known.entry.now.names.now (map shown_view known.entry.now.views.now)) all.items) }
    { read_views(alloc, bundle, rows, known, views) };
    let Ok(answers) = budget.each(&groups, read) else {
        return None;
    };
    together(alloc, answers)
}

/// The views whose parts are small, in groups of about as many bytes, a group for a thread; none where they are not worth two.
fn groups_in<R: Threads + Sync>(
    budget: &ThreadBudget<'_, R>,
    bundle: &Bundle<'_>,
    rows: Rows,
    known: &KnownViews<'_>,
) -> Option<Vec<Vec<usize>>> {
    if budget.threads < 2 {
        return None;
    }
    let small = small_parts(budget, bundle, rows, known)?;
    let bytes = bytes_of(&small);
    let count = budget.parts(Work::Bytes, bytes);
    if count < 2 {
        return None;
    }
    groups_of(budget.alloc, &small, bytes.div_ceil(count))
}

/// The parts that one thread would read, the last view's first.
fn small_parts<R: Threads + Sync>(
    budget: &ThreadBudget<'_, R>,
    bundle: &Bundle<'_>,
    rows: Rows,
    known: &KnownViews<'_>,
) -> Option<Vec<SmallPart>> {
    let mut small = Vec::new(budget.alloc);
    for (number, view) in known.views.iter().enumerate() {
        let name = known.names.name(number).as_bytes();
        if let Some(part) = part_of(bundle, rows, name, view) {
            let bytes = part.body.as_slice().len();
            if budget.parts(Work::Bytes, bytes) < 2 {
                small
                    .push(SmallPart {
                        view: number,
                        bytes,
                    })
                    .ok()?;
            }
        }
    }
    small.reverse();
    Some(small)
}

/// How many bytes the parts have. It tells how many threads are worth their start, and no more.
fn bytes_of(small: &[SmallPart]) -> usize {
    let mut bytes: usize = 0;
    for part in small {
        bytes = bytes.saturating_add(part.bytes);
    }
    bytes
}

/// The views of these parts in their order, in groups of so many bytes or more; the last group may have fewer.
fn groups_of(alloc: Global, small: &[SmallPart], share: usize) -> Option<Vec<Vec<usize>>> {
    let mut groups = Vec::new(alloc);
    let mut group = Vec::new(alloc);
    let mut bytes: usize = 0;
    for part in small {
        group.push(part.view).ok()?;
        bytes = bytes.saturating_add(part.bytes);
        if share <= bytes {
            groups.push(mem::replace(&mut group, Vec::new(alloc))).ok()?;
            bytes = 0;
        }
    }
    if !group.is_empty() {
        groups.push(group).ok()?;
    }
    Some(groups)
}

/// What is read ahead of these views, in their order, if there is memory. A part with a fault of its own is left out.
fn read_views(
    alloc: Global,
    bundle: &Bundle<'_>,
    rows: Rows,
    known: &KnownViews<'_>,
    views: &[usize],
) -> Option<Vec<ViewAhead>>
    ensures { IfSome result (λ all. All (IsAheadOf (shown_rows rows) bundle.now known.now.names.now (map shown_view known.now.views.now)) all.items) }
{
    let mut all = Vec::new(alloc);
    for view in views {
        let Some(own) = read_view(alloc, bundle, rows, known, *view) else {
            continue;
        };
        let Ok(()) = all.push(own) else {
            return None;
        };
    }
    Some(all)
}

/// What is read ahead of a view, where it has a part.
fn read_view(
    alloc: Global,
    bundle: &Bundle<'_>,
    rows: Rows,
    known: &KnownViews<'_>,
    number: usize,
) -> Option<ViewAhead>
    ensures { IfSome result (IsAheadOf (shown_rows rows) bundle.now known.now.names.now (map shown_view known.now.views.now)) }
{
    let view = known.views.get(number)?;
    let part = part_of(bundle, rows, known.names.name(number).as_bytes(), view)?;
    let Ok(text) = part.text(alloc) else {
        return None;
    };
    let own = read_ahead(alloc, rows.content(), &view.columns, &text)?;
    Some(ViewAhead {
        view: number,
        rows: own,
    })
}

/// What all groups gave, one behind the other, if there is memory.
fn together(alloc: Global, groups: Vec<Option<Vec<ViewAhead>>>) -> Option<Vec<ViewAhead>>
    ensures { (kind : ReadRows) (parts : List Part) (names : List (List ℕ)) (views : List ViewOf)
        → All (λ group. IfSome group (λ own. All (IsAheadOf kind parts names views) own.items)) groups.items
        → IfSome result (λ all. All (IsAheadOf kind parts names views) all.items) }
{
    let mut all = Vec::new(alloc);
    for group in groups {
        let mut own = group?;
        let Ok(()) = all.append(&mut own) else {
            return None;
        };
    }
    Some(all)
}

/// Takes what was read ahead of this view off the list, if it is the list's last; else it is `None`.
pub fn take_next(ahead: &mut Vec<ViewAhead>, view: usize) -> Option<RowsAhead>
    ensures { ahead.old.items ≡ ahead.new.items ++ option_to_list (option_map (λ rows. record { view = view; rows = rows }) result) }
{
    let last = ahead.last()?;
    if last.view != view {
        return None;
    }
    let own = ahead.pop()?;
    Some(own.rows)
}
