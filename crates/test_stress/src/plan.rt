//! What is to be run.

use std::time::Duration;

/// What is beside the readers, and what they do.
#[derive(Clone, Copy, Debug, PartialEq, Eq)]
pub enum Kind {
    /// A writer; each page is looked at.
    Check,
    /// A writer; pages are timed.
    Busy,
    /// No writer; pages are timed.
    Idle,
}

/// What is to be run.
#[derive(Clone, Copy)]
pub struct Plan {
    pub kind: Kind,
    /// How many readers, 1 to 16.
    pub readers: usize,
    /// For how long.
    pub length: Duration,
    /// How many blocks the table has.
    pub blocks: u32,
    /// How many rows a page has, 1 to 256.
    pub rows: usize,
    /// How many versions the store keeps, 2 to 4.
    pub versions: usize,
}

/// The number in a word between these two, or the default where there is no word.
fn number(words: &[String], place: usize, least: u64, most: u64, usual: u64) -> Option<u64> {
    let Some(word) = words.get(place) else {
        return Some(usual);
    };
    let number: u64 = word.as_str().parse().ok()?;
    if number < least || number > most {
        return None;
    }
    Some(number)
}

/// The kind of run that the first word names.
fn named(words: &[String]) -> Option<Kind> {
    match words.first()?.as_str() {
        "check" => Some(Kind::Check),
        "busy" => Some(Kind::Busy),
        "idle" => Some(Kind::Idle),
        _ => None,
    }
}

impl Plan {
    /// The plan that the words say, if they say one.
    pub fn of(words: &[String]) -> Option<Plan> {
        let kind = named(words)?;
        let readers = number(words, 1, 1, 16, 4)?;
        let seconds = number(words, 2, 1, 86_400, 60)?;
        let blocks = number(words, 3, 1, 65_536, 391)?;
        let rows = number(words, 4, 1, 256, 256)?;
        let versions = number(words, 5, 2, 4, 2)?;
        Some(Plan {
            kind,
            readers: readers as usize,
            length: Duration::from_secs(seconds),
            blocks: u32::try_from(blocks).ok()?,
            rows: rows as usize,
            versions: versions as usize,
        })
    }
}
