//! What the lines of a plan say together, by which the next line is judged.
ghost use Rattle.std.specs.Prelude.{◌≡◌, ◌||◌, [], IfOk};
ghost use Rattle.wh_text_lines.specs.ListedLines.{if_follows};
ghost use Rattle.wh_text_lines.specs.PlanText.{has_pairs, is_certifying, may_end, may_follow, may_stand, nodes_in, plan_grammar, scope_in};
ghost use Rattle.wh_text_lines.specs.TreeGrowth.{after_nodes};

use super::line::{PlanLine, plan_line_of};
use super::places::Places;
use crate::lines::Grammar;
use std::alloc::{AllocError, Global};
use std::marker::Model;
use wh_cert::Scope;
use wh_text::{LoadFault, Names};

/// What lines say, each in its place.
#[derive(Drop)]
pub(super) struct Said {
    lines: Vec<PlanLine>,
    // Whether one of them is of the certificate.
    certifying: bool,
    // Where trees are still to stand after the nodes among them.
    places: Places,
}

impl Model for Said {
    ghost use Rattle.std.specs.Prelude.{◌≡◌, List, Some};
    ghost use Rattle.std.specs.List.{list_any};
    ghost use Rattle.wh_text_lines.specs.PlanText.{is_certifying, nodes_of};
    ghost use Rattle.wh_text_lines.specs.TreeGrowth.{places_after};
    ghost use Rattle.wh_text_lines.specs.declared.plan.line.PlanLine.{PlanLine};

    ghost Value = { List PlanLine };

    ghost view = { λ s. s.lines.items };

    ghost invariant = { λ s. (s.certifying ≡ list_any is_certifying s.lines.items) × (places_after (nodes_of s.lines.items) ≡ Some s.places) };
}

impl Said {
    /// Returns what no line has said. Takes no memory.
    fn new(alloc: Global) -> Said
        ensures { result ≡ [] }
    {
        Said {
            lines: Vec::new(alloc),
            certifying: false,
            places: Places::root(alloc),
        }
    }

    /// Gives what each line says.
    pub(super) fn into_lines(self) -> Vec<PlanLine>
        ensures { result.items ≡ self }
    {
        self.lines
    }

    /// Returns whether a line of this kind may stand after these.
    fn may_take(&self, line: &PlanLine) -> bool
        ensures { result ≡ may_stand self.now line.now }
    {
        match line {
            PlanLine::Scoped(_) => self.lines.is_empty(),
            PlanLine::Worked(_) => self.lines.len() == 1,
            PlanLine::Listed(_) => self.lines.len() > 1 && !self.certifying,
            PlanLine::Paired(_) => self.lines.len() > 1 && has_pairs(scope_in(&self.lines)),
            PlanLine::Searched(_) => self.lines.len() > 1 && !has_pairs(scope_in(&self.lines)),
        }
    }

    /// Returns whether lines may end here.
    fn may_end(&self) -> bool
        ensures { result ≡ may_end self.now }
    {
        self.lines.len() > 1 && (has_pairs(scope_in(&self.lines)) || self.places.is_empty())
    }

    /// Adds what a line says, or answers `None` where it says nothing that may stand after these.
    fn with(self, line: Option<PlanLine>) -> Result<Option<Said>, AllocError>
        ensures { IfOk result (λ said. said ≡ if_follows may_follow self line) }
    {
        let Some(line) = line else {
            return Ok(None);
        };
        if !self.may_take(&line) {
            return Ok(None);
        }
        let Said {
            mut lines,
            certifying,
            places,
        } = self;
        let Some(places) = places_with(places, &line)? else {
            return Ok(None);
        };
        let certifying = certifying_with(certifying, &line);
        lines.push(line)?;
        Ok(Some(Said {
            lines,
            certifying,
            places,
        }))
    }
}

/// Returns whether a line is of the certificate, this one or one before it.
fn certifying_with(before: bool, line: &PlanLine) -> bool
    ensures { result ≡ (before || is_certifying line.now) }
{
    before || is_certifying(line)
}

/// Returns whether the line is of the certificate.
fn is_certifying(line: &PlanLine) -> bool
    ensures { result ≡ is_certifying line.now }
{
    match line {
        PlanLine::Paired(_) | PlanLine::Searched(_) => true,
        _ => false,
    }
}

/// Returns the places that the node leaves which a line says, if it does.
fn places_with(places: Places, line: &PlanLine) -> Result<Option<Places>, AllocError>
    ensures { IfOk result (λ after. after ≡ after_nodes (nodes_in line.now) places) }
{
    match line {
        PlanLine::Searched(node) => places.after(node),
        _ => Ok(Some(places)),
    }
}

/// Returns whether the certificate of this scope is of pairs.
fn has_pairs(scope: Scope) -> bool
    ensures { result ≡ has_pairs scope }
{
    match scope {
        Scope::All => true,
        Scope::OneWay => false,
    }
}

/// Returns the scope that the first of these lines says.
pub(super) fn scope_in(lines: &[PlanLine]) -> Scope
    ensures { result ≡ scope_in lines.now }
{
    match lines {
        [PlanLine::Scoped(scope), ..] => *scope,
        _ => Scope::All,
    }
}

/// The lines of a plan over these views.
#[derive(Drop)]
pub(super) struct PlanLines<'a> {
    pub(super) names: &'a Names,
}

impl Grammar for PlanLines<'_> {
    type Said = Said;

    ghost grammar = { λ lines. plan_grammar lines.names.now };

    fn nothing(&self, alloc: Global) -> Said {
        Said::new(alloc)
    }

    fn with_line(
        &self,
        alloc: Global,
        said: Said,
        line: &[u8],
        words: &[&[u8]],
    ) -> Result<Option<Said>, AllocError> {
        let own = plan_line_of(alloc, self.names, line, words)?;
        said.with(own)
    }

    fn may_end(&self, said: &Said) -> bool {
        said.may_end()
    }

    fn fault(&self, number: usize) -> LoadFault {
        LoadFault::Plan(number)
    }
}
