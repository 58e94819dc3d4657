//! Reads the rows of a part ahead of the dictionary in which its texts get numbers.

ghost use Rattle.std.specs.Prelude.{◌≡◌, ◌⊎◌, length, IfSome, IfOk, IfErr, OnErr, Ok, Err};
ghost use Rattle.wh_row.specs.Bag.{HasWidth};
ghost use Rattle.wh_text_tables.specs.TableText.{text_gives};
ghost use Rattle.wh_text_tables.specs.TableRead.{IsAhead};

use super::read_text;
use crate::table::header::Content;
use crate::table::rows::{RowsRead, RowsReader};
use crate::table::wide::{bag_from, read_part_alone};
use std::alloc::Global;
use std::marker::Model;
use std::thread::Threads;
use wh_row::Bag;
use wh_text::{Column, Dict, LoadFault};
use wh_threads::ThreadBudget;

/// The rows of a table's text or of a text of changes, read as if no text had a number yet.
#[derive(Drop)]
pub struct RowsAhead {
    pieces: Vec<RowsRead>,
}

impl Model for RowsAhead {
    ghost use Rattle.std.specs.Prelude.{List};
    ghost use Rattle.wh_text_tables.specs.declared.table.rows.RowsRead.{RowsRead};

    ghost Value = { List RowsRead };

    ghost view = { λ ahead. ahead.pieces.items };
}

/// Reads the text of a table or of changes of these columns ahead of a dictionary, by the caller's thread.
/// It is `None` where the text has a fault of its own, or memory is refused.
pub fn read_ahead(
    alloc: Global,
    content: Content,
    columns: &[Column],
    text: &[u8],
) -> Option<RowsAhead>
    ensures { IfSome result (IsAhead content columns.now text.now) }
{
    let reader = RowsReader {
        alloc,
        content,
        columns,
    };
    let pieces = read_part_alone(&reader, text)?;
    Some(RowsAhead { pieces })
}

/// Gives the rows of a text that was read ahead, with the numbers that its texts have in the dictionary. Each text of the part is looked
/// for in the dictionary once.
/// The answer and the errors are those of [`crate::read_table`] or [`crate::read_changes`] for this text. After an error the dictionary is
/// as before.
pub fn read_from<R: Threads + Sync>(
    budget: &ThreadBudget<'_, R>,
    content: Content,
    columns: &[Column],
    text: &[u8],
    ahead: RowsAhead,
    dict: &mut Dict,
) -> Result<Bag, LoadFault>
    requires { IsAhead content columns.now text.now ahead }
    ensures ok { IfOk result (λ bag. text_gives content columns.now dict.old text.now ≡ Ok (bag, dict.new)) }
    ensures width { IfOk result (λ bag. HasWidth bag (length columns.now)) }
    ensures err { IfErr result (λ f. (f ≡ LoadFault.Memory) ⊎ (text_gives content columns.now dict.old text.now ≡ Err f)) }
    ensures kept { OnErr result (dict.new ≡ dict.old) }
{
    let RowsAhead { pieces } = ahead;
    match bag_from(budget, columns, pieces, dict) {
        Some(bag) => Ok(bag),
        // Memory is refused, or a sum is too large.
        None => read_text(budget, content, columns, text, dict),
    }
}
