//! Names why a command line asks for nothing that can be done.

ghost use Rattle.std.specs.Prelude.{◌≡◌, ◌⊎◌, option_map};
ghost use Rattle.clap.specs.Words.{kind_of};
ghost use Rattle.clap.specs.declared.error.kind.ErrorKind.TheVariants.{InvalidValue};
ghost use Rattle.whview.specs.CommandFault.{status_of, status_of_kind, text_of};
ghost use Rattle.whview.specs.declared.command_line.fault.CommandFault.{CommandFault};

use crate::status::Status;
use clap::Error;
use clap::error::ErrorKind;
use std::alloc::{AllocError, Global};

/// The reasons for which a command line asks for nothing that can be done, with the text for the user.
#[derive(Drop)]
pub enum CommandFault {
    /// Help is asked for, and this is its text.
    Help(String),
    /// The words are no command line of this program, and this text says why.
    Refused(String),
    /// Memory was refused.
    Memory,
}

impl CommandFault {
    /// Returns the text to show, with its line ends; `None` where memory was refused.
    pub fn text(&self) -> Option<&str>
        ensures { option_map (λ t. t.now) result ≡ text_of self.now }
    {
        match self {
            CommandFault::Help(text) | CommandFault::Refused(text) => Some(text.as_str()),
            CommandFault::Memory => None,
        }
    }

    /// Returns the status that the program ends with.
    pub fn status(&self) -> Status
        ensures { result ≡ status_of self.now }
    {
        match self {
            CommandFault::Help(_) => Status::Done,
            CommandFault::Refused(_) => Status::Words,
            CommandFault::Memory => Status::Limit,
        }
    }

    /// Returns the fault of a word that is not to be printed, or Memory where its text cannot be had.
    pub(crate) fn unprintable(alloc: Global, word: &str) -> CommandFault
        ensures { (result ≡ CommandFault.Memory) ⊎ (status_of result ≡ status_of_kind InvalidValue) }
    {
        match format!(in alloc;
            "error: invalid value '{word}' for '--print <WHAT>'\n  [possible values: tables, changes]\n\nFor more information, try '--help'.\n"
        ) {
            Ok(text) => CommandFault::Refused(text),
            Err(_) => CommandFault::Memory,
        }
    }

    /// Returns the fault of an error of `clap`, or Memory where its text cannot be had.
    pub(crate) fn of(alloc: Global, error: &Error) -> CommandFault
        ensures { (result ≡ CommandFault.Memory)
            ⊎ (status_of result ≡ status_of_kind (kind_of error.now)) }
    {
        let Ok(text) = format!(in alloc; "{error}") else {
            return CommandFault::Memory;
        };
        // By the kind, since `clap` has one exit code for mistakes and for want of memory.
        match error.kind() {
            ErrorKind::OutOfMemory => CommandFault::Memory,
            ErrorKind::DisplayHelp => CommandFault::Help(text),
            _ => CommandFault::Refused(text),
        }
    }
}

impl From<AllocError> for CommandFault {
    ghost from_gives = { λ _ f. f ≡ CommandFault.Memory };

    fn from(_error: AllocError) -> CommandFault {
        CommandFault::Memory
    }
}
