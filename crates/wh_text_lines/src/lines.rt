//! Texts whose lines say something, one below another: one loop reads them, whatever they say.
ghost use Rattle.std.specs.Prelude.{◌≡◌, ◌≢◌, ◌⊎◌, [], map, Some, None, Ok, Err, IfOk, IfErr, IsTrue};
ghost use Rattle.wh_text_lines.specs.LineGrammar.{LineGrammar, LinesRead, LinesStop, read_by, said_with};

use crate::words::{first_line, words_of};
use std::alloc::{AllocError, Global};
use wh_text::LoadFault;

/// Which lines may stand one below another in a text, and what they say together.
pub(crate) trait Grammar {
    /// What lines say together.
    type Said: Drop;

    ghost grammar: { Self → LineGrammar Self.Said };

    /// Returns what no line has said. It takes no memory.
    fn nothing(&self, alloc: Global) -> Self::Said
        ensures { result ≡ (grammar self.now).nothing };

    /// Returns what lines that said this say with a line of these words below them, or `None` where it may not stand there.
    fn with_line(
        &self,
        alloc: Global,
        said: Self::Said,
        line: &[u8],
        words: &[&[u8]],
    ) -> Result<Option<Self::Said>, AllocError>
        ensures { IfOk result (λ more. more ≡ (grammar self.now).with_line said line.now (map (λ word. word.now) words.now)) };

    /// Returns whether lines that said this may be all of a text.
    fn may_end(&self, said: &Self::Said) -> bool
        ensures { result ≡ (grammar self.now).may_end said.now };

    /// Returns the fault of the line of this number.
    fn fault(&self, number: usize) -> LoadFault
        ensures { result ≡ (grammar self.now).fault number };
}

/// Returns what lines that said this say with the line of this number below them.
fn with_line<G: Grammar>(
    alloc: Global,
    grammar: &G,
    said: G::Said,
    line: &[u8],
    number: usize,
) -> Result<G::Said, LoadFault>
    ensures ok { IfOk result (λ more. said_with (G.grammar grammar.now) said line.now ≡ Some more) }
    ensures err { IfErr result (λ f. (f ≡ LoadFault.Memory)
        ⊎ ((said_with (G.grammar grammar.now) said line.now ≡ None) × (f ≡ (G.grammar grammar.now).fault number))) }
{
    let words = words_of(alloc, line)?;
    if words.is_empty() {
        return Ok(said);
    }
    match grammar.with_line(alloc, said, line, &words)? {
        Some(more) => Ok(more),
        None => Err(grammar.fault(number)),
    }
}

/// Returns what the lines of the text say together. The fault is the grammar's with the first line that may not stand below those above it,
/// counted from 1, blank ones included. Where the text ends too early, that is the line after its last. An empty text takes no memory.
pub(crate) fn read_lines<G: Grammar>(
    alloc: Global,
    grammar: &G,
    text: &[u8],
) -> Result<G::Said, LoadFault>
    ensures ok { IfOk result (λ said. read_by (G.grammar grammar.now) text.now ≡ Ok said) }
    ensures whole { IfOk result (λ said. IsTrue ((G.grammar grammar.now).may_end said)) }
    ensures err { IfErr result (λ f. ((f ≡ LoadFault.Memory) × (text.now ≢ [])) ⊎ (read_by (G.grammar grammar.now) text.now ≡ Err f)) }
{
    let mut said = grammar.nothing(alloc);
    let mut rest = text;
    let mut number = 0;
    while !rest.is_empty() {
        let (line, below) = first_line(rest);
        rest = below;
        number += 1;
        said = with_line(alloc, grammar, said, line, number)?;
    }
    if !grammar.may_end(&said) {
        return Err(grammar.fault(number + 1));
    }
    Ok(said)
}

/// A law of the definitions: a text is read as what its lines say together, where each may stand below those above it and the last may be
/// the last. This holds for whatever lines may say. Any other text is at fault at the first line that may not stand there, or after its
/// last line.
pub fn line_grammar_law<Said>()
    ensures read { LinesRead Said }
    ensures stop { LinesStop Said }
{}
