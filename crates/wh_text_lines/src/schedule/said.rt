//! What the lines of a schedule say together, by which the next line is judged.
ghost use Rattle.std.specs.Prelude.{◌≡◌, [], IfOk};
ghost use Rattle.wh_text_lines.specs.ListedLines.{if_follows};
ghost use Rattle.wh_text_lines.specs.ScheduleText.{may_end, may_follow, schedule_grammar};

use super::line::{ScheduleLine, schedule_line_of};
use crate::lines::Grammar;
use std::alloc::{AllocError, Global};
use std::marker::Model;
use wh_text::{LoadFault, Names};

/// What lines say, each in its place.
#[derive(Drop)]
pub(super) struct Said {
    lines: Vec<ScheduleLine>,
}

impl Model for Said {
    ghost use Rattle.std.specs.Prelude.{List};
    ghost use Rattle.wh_text_lines.specs.declared.schedule.line.ScheduleLine.{ScheduleLine};

    ghost Value = { List ScheduleLine };

    ghost view = { λ s. s.lines.items };
}

impl Said {
    /// Gives what each line says.
    pub(super) fn into_lines(self) -> Vec<ScheduleLine>
        ensures { result.items ≡ self }
    {
        self.lines
    }

    /// Returns whether a line of this kind may stand after these.
    fn may_take(&self, line: &ScheduleLine) -> bool
        ensures { result ≡ may_follow self.now line.now }
    {
        match line {
            ScheduleLine::Desks(_) => self.lines.is_empty(),
            ScheduleLine::Workers(_) => self.lines.len() == 1,
            ScheduleLine::Keys(_) => self.lines.len() == 2,
            ScheduleLine::Versions(_) => self.lines.len() == 3,
            ScheduleLine::Event(_) => self.lines.len() > 2,
        }
    }

    /// Adds what a line says, or answers `None` where it says nothing that may stand after these.
    fn with(self, line: Option<ScheduleLine>) -> Result<Option<Said>, AllocError>
        ensures { IfOk result (λ said. said ≡ if_follows may_follow self line) }
    {
        let Some(line) = line else {
            return Ok(None);
        };
        if !self.may_take(&line) {
            return Ok(None);
        }
        let Said { mut lines } = self;
        lines.push(line)?;
        Ok(Some(Said { lines }))
    }
}

/// The lines of a schedule over these views.
#[derive(Drop)]
pub(super) struct ScheduleLines<'a> {
    pub(super) names: &'a Names,
}

impl Grammar for ScheduleLines<'_> {
    type Said = Said;

    ghost grammar = { λ lines. schedule_grammar lines.names.now };

    fn nothing(&self, alloc: Global) -> Said {
        Said {
            lines: Vec::new(alloc),
        }
    }

    fn with_line(
        &self,
        _alloc: Global,
        said: Said,
        _line: &[u8],
        words: &[&[u8]],
    ) -> Result<Option<Said>, AllocError> {
        said.with(schedule_line_of(self.names, words))
    }

    fn may_end(&self, said: &Said) -> bool {
        said.lines.len() > 2
    }

    fn fault(&self, number: usize) -> LoadFault {
        LoadFault::Schedule(number)
    }
}
