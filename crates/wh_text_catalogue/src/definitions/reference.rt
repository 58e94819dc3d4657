//! Tests the form of references to columns.
ghost use Rattle.std.specs.Prelude.{◌≡◌};
ghost use Rattle.wh_text_catalogue.specs.Reference.{is_reference};

use crate::name_form::is_name;

/// Tells whether the text is a reference: the name of a view, a dot, and the name of a column.
pub(crate) fn is_reference(text: &str) -> bool
    ensures { result ≡ is_reference text.now }
{
    match text.split_once('.') {
        Some((view, column)) => is_name(view) && is_name(column),
        None => false,
    }
}
