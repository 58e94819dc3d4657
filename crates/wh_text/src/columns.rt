//! The columns of a view, by which cells are read and written.
ghost use Rattle.std.specs.Prelude.{◌≡◌, string_bytes, true};
ghost use Rattle.std.specs.Str.{is_utf8};

use std::marker::Model;

/// What the cells of a column are. Each is a whole number, in a column of texts the number that a dictionary gives the text.
#[derive(Debug, Clone, Copy, PartialEq, Eq)]
pub enum Kind {
    /// Whole numbers within i64.
    Int,
    /// Texts.
    Text,
}

/// A column: its name, and the kind of its cells.
#[derive(Debug, Drop)]
pub struct Column {
    name: String,
    kind: Kind,
}

impl Model for Column {
    ghost use Rattle.wh_text.specs.Columns.{NamedKind, named_kind};

    ghost Value = { NamedKind };

    ghost view = { λ c. named_kind c.name c.kind };
}

impl Column {
    /// Makes the column of this name and kind. Whether the name has the form of a name is for the caller to judge.
    pub fn new(name: String, kind: Kind) -> Column
        ensures name { result.name ≡ string_bytes name }
        ensures kind { result.kind ≡ kind }
    {
        Column { name, kind }
    }

    /// Returns the column's name.
    pub fn name(&self) -> &str
        ensures { result.now ≡ self.now.name }
    {
        self.name.as_str()
    }

    /// Returns the kind of the column's cells.
    pub fn kind(&self) -> Kind
        ensures { result ≡ self.now.kind }
    {
        self.kind
    }
}
