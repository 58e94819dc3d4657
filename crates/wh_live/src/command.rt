//! Takes lines as commands, each of one line or of the lines of a night.

ghost use Rattle.std.specs.Prelude.{◌≡◌, ◌++◌, None, Some, option_map, IfOk, OnErr, OnOk};
ghost use Rattle.wh_live.specs.Commands.{CommandGrammar, begun_by, line_in_full, shown_command, taken};

use crate::request::{Request, asked_by, cells_in, is_end};
use std::alloc::{AllocError, Global};
use std::marker::Model;
use std::mem;
use wh_text::Names;
use wh_text_lines::ScheduledEvent;

/// A command: what is to be done.
#[derive(Drop)]
pub enum Command {
    /// A night, to be carried out up to before its commit; these are the bytes of its parts.
    Night(Vec<u8>),
    /// An event of a schedule.
    Event(ScheduledEvent),
    /// A page of a view in a desk's session.
    Page {
        /// The desk.
        desk: usize,
        /// The number of the view, or `None` where the name is no view's.
        view: Option<usize>,
        /// The most rows that are asked for.
        limit: usize,
        /// The cells of the row behind which the page begins, as a record writes them; `None` where it begins with the first row.
        after: Option<Vec<u8>>,
    },
    /// How many rows all tables have, and which versions can be read.
    Tables,
    /// By how much the rows of derived views count otherwise in what the open night has written.
    Changes,
    /// The end: no more commands are taken.
    Quit,
    /// A line that says nothing that is known.
    Unknown,
}

/// Lines that are taken one after another.
/// They are seen as the parts of the night whose end has not come, if there is one.
#[derive(Drop)]
pub struct Lines {
    night: Option<Vec<u8>>,
}

impl Model for Lines {
    ghost use Rattle.std.specs.Prelude.{List, Option, ℕ, option_map};

    ghost Value = { Option (List ℕ) };

    ghost view = { λ l. option_map (λ parts. parts.items) l.night };
}

/// Appends a line with its LF.
fn append_line(parts: &mut Vec<u8>, line: &[u8]) -> Result<(), AllocError>
    ensures ok { OnOk result (parts.new.items ≡ parts.old.items ++ line_in_full line.now) }
    ensures err { OnErr result (parts.new.items ≡ parts.old.items) }
{
    parts.reserve(line.len() + 1)?;
    let Ok(()) = parts.extend_from_slice(line) else {
        unreachable!()
    };
    let Ok(()) = parts.push(b'\n') else {
        unreachable!()
    };
    Ok(())
}

impl Lines {
    /// Begins before the first line.
    pub fn new() -> Lines
        ensures { result ≡ None }
    {
        Lines { night: None }
    }

    /// Tells whether a night has begun whose end has not come.
    pub fn is_amid_night(&self) -> bool
        ensures { result ≡ Rattle.std.specs.Prelude.is_some self.now }
    {
        self.night.is_some()
    }

    /// Takes the next line, without its LF, and returns the command that it ends, if it ends one. An error leaves the lines as they
    /// were before it. Takes time for the line's bytes, amortised.
    pub fn take(
        &mut self,
        alloc: Global,
        names: &Names,
        line: &[u8],
    ) -> Result<Option<Command>, AllocError>
        ensures ok { IfOk result (λ command. (self.new, option_map shown_command command) ≡ taken names.now self.old line.now) }
        ensures err { OnErr result (self.new ≡ self.old) }
    {
        let Some(parts) = &mut self.night else {
            return self.begin(alloc, names, line);
        };
        if !is_end(line) {
            append_line(parts, line)?;
            return Ok(None);
        }
        let ended = mem::replace(parts, Vec::new(alloc));
        self.night = None;
        Ok(Some(Command::Night(ended)))
    }

    /// Takes a line where no night has begun.
    fn begin(
        &mut self,
        alloc: Global,
        names: &Names,
        line: &[u8],
    ) -> Result<Option<Command>, AllocError>
        requires { self.old ≡ None }
        ensures ok { IfOk result (λ command. (self.new, option_map shown_command command) ≡ taken names.now None line.now) }
        ensures err { OnErr result (self.new ≡ self.old) }
    {
        match asked_by(alloc, names, line)? {
            Some(Request::Night) => {
                self.night = Some(Vec::new(alloc));
                Ok(None)
            }
            Some(Request::Event(event)) => Ok(Some(Command::Event(event))),
            Some(Request::Page { desk, view, limit }) => Ok(Some(Command::Page {
                desk,
                view,
                limit,
                after: None,
            })),
            Some(Request::PageAfter { desk, view, limit }) => Ok(Some(Command::Page {
                desk,
                view,
                limit,
                after: Some(cells_in(line).to_vec(alloc)?),
            })),
            Some(Request::Tables) => Ok(Some(Command::Tables)),
            Some(Request::Changes) => Ok(Some(Command::Changes)),
            Some(Request::Quit) => Ok(Some(Command::Quit)),
            Some(Request::Unknown) => Ok(Some(Command::Unknown)),
            None => Ok(None),
        }
    }
}

/// A law of the definitions: lines are read as the commands that they say. A line without words says nothing. A night is the lines from
/// `night` down to the first line `@end`, and while that has not come it says nothing yet. Each other line is a command of its own.
pub fn command_grammar_law()
    ensures { CommandGrammar }
{}
