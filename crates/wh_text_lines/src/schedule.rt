//! Reads a schedule as text: how large the machine is, and the events that it goes through.
ghost use Rattle.std.specs.Prelude.{◌≡◌, ◌≢◌, ◌⊎◌, ◌≤◌, [], Ok, Err, IfOk, IfErr};
ghost use Rattle.wh_text_lines.specs.ScheduleGrammar.{ScheduleFaults, ScheduleGrammar};
ghost use Rattle.wh_text_lines.specs.ScheduleText.{desks_in, keys_in, schedule_from, schedule_of, versions_in, workers_in};
ghost use Rattle.wh_text_lines.specs.Inner.ScheduleText.{IsSized};

pub mod event;
mod line;
mod said;

use crate::lines::read_lines;
use event::ScheduledEvent;
use line::ScheduleLine;
use said::ScheduleLines;
use std::alloc::{AllocError, Global};
use std::marker::Model;
use wh_text::{LoadFault, Names};

/// A machine's size, and the events that it goes through.
#[derive(Debug, Drop)]
pub struct Schedule {
    desks: usize,
    workers: usize,
    keys: usize,
    versions: usize,
    events: Vec<ScheduledEvent>,
}

impl Model for Schedule {
    ghost use Rattle.wh_text_lines.specs.ScheduleText.{ScheduleOf};
    ghost use Rattle.wh_text_lines.specs.Inner.ScheduleText.{IsSized};

    ghost Value = { ScheduleOf };

    ghost view = { λ s. record { desks = s.desks; workers = s.workers; keys = s.keys; versions = s.versions; events = s.events.items } };

    ghost invariant = { λ s. IsSized s.desks s.workers s.keys s.versions };
}

impl Schedule {
    /// Returns how many desks there are.
    pub fn desks(&self) -> usize
        ensures value { result ≡ self.now.desks }
        ensures some { 1 ≤ result }
        ensures most { result ≤ 16 }
    {
        self.desks
    }

    /// Returns how many workers there are.
    pub fn workers(&self) -> usize
        ensures value { result ≡ self.now.workers }
        ensures some { 1 ≤ result }
        ensures most { result ≤ 16 }
    {
        self.workers
    }

    /// Returns how many keys a page has at most.
    pub fn keys(&self) -> usize
        ensures value { result ≡ self.now.keys }
        ensures some { 1 ≤ result }
        ensures most { result ≤ 256 }
    {
        self.keys
    }

    /// Returns the number of versions whose contents are kept: the current one, and those just before it.
    pub fn versions(&self) -> usize
        ensures value { result ≡ self.now.versions }
        ensures some { 2 ≤ result }
        ensures most { result ≤ 4 }
    {
        self.versions
    }

    /// Returns the events, in order.
    pub fn events(&self) -> &[ScheduledEvent]
        ensures { result.now ≡ self.now.events }
    {
        self.events.as_slice()
    }
}

/// Returns how many desks the first of these lines says.
fn desks_in(lines: &[ScheduleLine]) -> usize
    ensures { result ≡ desks_in lines.now }
{
    match lines {
        [ScheduleLine::Desks(desks), ..] => *desks,
        _ => 0,
    }
}

/// Returns how many workers the second of these lines says.
fn workers_in(lines: &[ScheduleLine]) -> usize
    ensures { result ≡ workers_in lines.now }
{
    match lines {
        [_, ScheduleLine::Workers(workers), ..] => *workers,
        _ => 0,
    }
}

/// Returns how many keys of a page the third of these lines says.
fn keys_in(lines: &[ScheduleLine]) -> usize
    ensures { result ≡ keys_in lines.now }
{
    match lines {
        [_, _, ScheduleLine::Keys(keys), ..] => *keys,
        _ => 0,
    }
}

/// Returns how many versions the fourth of these lines says; two where it says none.
fn versions_in(lines: &[ScheduleLine]) -> usize
    ensures { result ≡ versions_in lines.now }
{
    match lines {
        [_, _, _, ScheduleLine::Versions(versions), ..] => *versions,
        _ => 2,
    }
}

/// Makes the schedule that these lines say.
fn schedule_from(alloc: Global, lines: Vec<ScheduleLine>) -> Result<Schedule, AllocError>
    requires { IsSized (desks_in lines.items) (workers_in lines.items) (keys_in lines.items) (versions_in lines.items) }
    ensures { IfOk result (λ schedule. schedule ≡ schedule_from lines.items) }
{
    let desks = desks_in(&lines);
    let workers = workers_in(&lines);
    let keys = keys_in(&lines);
    let versions = versions_in(&lines);
    let mut events = Vec::new(alloc);
    for line in lines {
        if let ScheduleLine::Event(event) = line {
            events.push(event)?;
        }
    }
    Ok(Schedule {
        desks,
        workers,
        keys,
        versions,
        events,
    })
}

/// A law of the definitions: a text is read as a schedule exactly where its lines with words are those of that schedule, in order. They are
/// `desks`, `workers` and `keys` with their numbers, `versions` with its number, where two need not be said, and its events. Any other text
/// is at fault at the first line with which its lines no longer begin a schedule, or after its last line.
pub fn schedule_grammar_law()
    ensures grammar { ScheduleGrammar }
    ensures faults { ScheduleFaults }
{}

/// Reads the schedule that the text is, over these views. Its lines are `desks N` and `workers N`, each 1 to 16, `keys N`, 1 to 256,
/// perhaps `versions N`, 2 to 4, and then the events, a line each. There are 2 versions where no line says how many. Lines of spaces and
/// tabs alone are skipped. Numbers are at most 1,000,000. A `read` may name what is no view.
///
/// The fault is `Schedule` with the first line that may not stand where it does, counted from 1, blank ones included. Where the text ends
/// before its keys are said, that is the line after its last. An empty text is at fault at line 1, always.
pub fn read_schedule(alloc: Global, names: &Names, text: &[u8]) -> Result<Schedule, LoadFault>
    ensures ok { IfOk result (λ schedule. schedule_of names.now text.now ≡ Ok schedule) }
    ensures err { IfErr result (λ f. (f ≡ LoadFault.Memory) ⊎ (schedule_of names.now text.now ≡ Err f)) }
    ensures memory { result ≡ Err LoadFault.Memory → text.now ≢ [] }
{
    let said = read_lines(alloc, &ScheduleLines { names }, text)?;
    let schedule = schedule_from(alloc, said.into_lines())?;
    Ok(schedule)
}
