//! Reads the lines of a schedule, each by itself.
ghost use Rattle.std.specs.Prelude.{◌≡◌, map};
ghost use Rattle.wh_text_lines.specs.ScheduleLine.{head_number, schedule_line_of};

use super::event::{ScheduledEvent, event_of};
use crate::natural::number_within;
use wh_text::Names;

/// What a line of a schedule says.
#[derive(Clone, Copy)]
pub(crate) enum ScheduleLine {
    /// How many desks there are.
    Desks(usize),
    /// How many workers there are.
    Workers(usize),
    /// How many keys a page has at most.
    Keys(usize),
    /// Of how many versions the contents are kept.
    Versions(usize),
    /// An event.
    Event(ScheduledEvent),
}

/// Returns the number of a line of the head, which is this word and a number from the least to the most.
fn head_number(word: &[u8], least: usize, most: usize, words: &[&[u8]]) -> Option<usize>
    ensures { result ≡ head_number word.now least most (map (λ word. word.now) words.now) }
{
    match words {
        [first, number] if *first == word => number_within(least, most, *number),
        _ => None,
    }
}

/// Returns what a line of these words says in a schedule over these views, or `None` where it says nothing there.
pub(super) fn schedule_line_of(names: &Names, words: &[&[u8]]) -> Option<ScheduleLine>
    ensures { result ≡ schedule_line_of names.now (map (λ word. word.now) words.now) }
{
    if let Some(desks) = head_number(b"desks", 1, 16, words) {
        return Some(ScheduleLine::Desks(desks));
    }
    if let Some(workers) = head_number(b"workers", 1, 16, words) {
        return Some(ScheduleLine::Workers(workers));
    }
    if let Some(keys) = head_number(b"keys", 1, 256, words) {
        return Some(ScheduleLine::Keys(keys));
    }
    if let Some(versions) = head_number(b"versions", 2, 4, words) {
        return Some(ScheduleLine::Versions(versions));
    }
    let event = event_of(names, words)?;
    Some(ScheduleLine::Event(event))
}
