//! Reads and writes a strategy as text: an expression a line.
ghost use Rattle.std.specs.Prelude.{◌≡◌, ◌≢◌, ◌⊎◌, ◌++◌, [], Ok, Err, IfOk, IfErr, OnOk, OnErr};
ghost use Rattle.wh_text_lines.specs.ReadsBack.{ReadsBack};
ghost use Rattle.wh_text_lines.specs.StrategyGrammar.{StrategyGrammar};
ghost use Rattle.wh_text_lines.specs.StrategyText.{strategy_grammar, strategy_of, strategy_text};

use crate::expression::{append_expression, expression_of};
use crate::lines::{Grammar, read_lines};
use std::alloc::{AllocError, Global};
use std::marker::Model;
use wh_strategy::{Expression, Strategy};
use wh_text::{LoadFault, Names};

/// The expressions that lines say.
#[derive(Drop)]
struct Listed {
    list: Vec<Expression>,
}

impl Model for Listed {
    ghost use Rattle.std.specs.Prelude.{List};
    ghost use Rattle.wh_strategy.specs.declared.expression.Expression.{Expression};

    ghost Value = { List Expression };

    ghost view = { λ l. l.list.items };
}

/// The lines of a strategy over these views.
#[derive(Drop)]
struct StrategyLines<'a> {
    names: &'a Names,
}

impl Grammar for StrategyLines<'_> {
    type Said = Listed;

    ghost grammar = { λ lines. strategy_grammar lines.names.now };

    fn nothing(&self, alloc: Global) -> Listed {
        Listed {
            list: Vec::new(alloc),
        }
    }

    fn with_line(
        &self,
        alloc: Global,
        said: Listed,
        _line: &[u8],
        words: &[&[u8]],
    ) -> Result<Option<Listed>, AllocError> {
        let Some(expression) = expression_of(alloc, self.names, words)? else {
            return Ok(None);
        };
        let Listed { mut list } = said;
        list.push(expression)?;
        Ok(Some(Listed { list }))
    }

    fn may_end(&self, _said: &Listed) -> bool {
        true
    }

    fn fault(&self, number: usize) -> LoadFault {
        LoadFault::Strategy(number)
    }
}

/// Reads the strategy that the text is, over these views: a line `comp V from U ..` or `inst V` for each expression. Lines of spaces and
/// tabs alone are skipped. Whether the list is correct is for `check` to judge. An empty text is an empty list, always. The fault is
/// `Strategy` with the first line that is neither, counted from 1, blank ones included.
pub fn read_strategy(alloc: Global, names: &Names, text: &[u8]) -> Result<Strategy, LoadFault>
    ensures ok { IfOk result (λ strategy. strategy_of names.now text.now ≡ Ok strategy) }
    ensures err { IfErr result (λ f. (f ≡ LoadFault.Memory) ⊎ (strategy_of names.now text.now ≡ Err f)) }
    ensures memory { OnErr result (text.now ≢ []) }
{
    let Listed { list } = read_lines(alloc, &StrategyLines { names }, text)?;
    Ok(Strategy::new(list))
}

/// Appends the list as it is written, a line for each expression. Where memory fails, a part of it may have been appended; an empty list
/// takes none.
pub(crate) fn append_strategy(
    out: &mut Vec<u8>,
    names: &Names,
    strategy: &Strategy,
) -> Result<(), AllocError>
    ensures ok { OnOk result (out.new.items ≡ out.old.items ++ strategy_text names.now strategy.now) }
    ensures memory { OnErr result (strategy.now ≢ []) }
{
    for expression in strategy.as_slice() {
        append_expression(out, names, expression)?;
        out.push(b'\n')?;
    }
    Ok(())
}

/// Appends the list as it is written, a line for each expression. Where memory fails, nothing is appended; an empty list takes none. Takes
/// O(n) for n bytes that are written.
pub fn write_strategy(
    out: &mut Vec<u8>,
    names: &Names,
    strategy: &Strategy,
) -> Result<(), AllocError>
    ensures ok { OnOk result (out.new.items ≡ out.old.items ++ strategy_text names.now strategy.now) }
    ensures err { OnErr result (out.new.items ≡ out.old.items) }
    ensures memory { OnErr result (strategy.now ≢ []) }
{
    let mut text = Vec::new(*out.allocator());
    append_strategy(&mut text, names, strategy)?;
    out.extend_from_slice(&text)
}

/// A law of the definitions: over plain and distinct names, a list that was written is read back as it was.
pub fn reads_back_law()
    ensures { ReadsBack }
{}

/// A law of the definitions: a text is the strategy of the expressions that its lines with words say, in order, where each says one. Any
/// other text is at fault at the first line with words that says none.
pub fn strategy_grammar_law()
    ensures { StrategyGrammar }
{}
