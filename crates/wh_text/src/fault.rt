//! What is wrong with an input, so exactly that its number and its printed line are proved.
ghost use Rattle.std.specs.Prelude.{◌≡◌, ◌++◌, OnOk, OnErr};
ghost use Rattle.wh_text.specs.FaultText.{key_text, fault_number, fault_text, shape_text};
ghost use Rattle.wh_text.specs.Inner.FaultText.{end_text};

pub use crate::word::Word;
use std::alloc::{AllocError, AllocFailed, Global};
use std::fmt::{self, Display, Formatter};
use thiserror::Error;
use wh_dag::ShapeFault;

/// The keys of a view's table in a catalogue, and the array of the views.
#[derive(Debug, Clone, Copy, PartialEq, Eq)]
pub enum Key {
    /// The array of the views.
    View,
    /// The view's name.
    Name,
    /// The columns of a base view.
    Columns,
    /// The views that a derived view is over.
    Over,
    /// The pairs of columns that are equal.
    Join,
    /// The predicate that holds of a row.
    Where,
    /// The columns of a joined view.
    Keep,
    /// The columns that a summary groups by.
    Group,
    /// The column that counts a group's rows.
    Count,
    /// The columns that sum over a group's rows.
    Sum,
}

impl Key {
    /// Returns the key as the catalogue writes it.
    pub fn text(self) -> &'static str
        ensures { result.now ≡ key_text self }
    {
        match self {
            Key::View => "view",
            Key::Name => "name",
            Key::Columns => "columns",
            Key::Over => "over",
            Key::Join => "join",
            Key::Where => "where",
            Key::Keep => "keep",
            Key::Group => "group",
            Key::Count => "count",
            Key::Sum => "sum",
        }
    }
}

/// The first fault of an input. Records count from 1, the header being the first; lines count from 1 within their part.
#[derive(Debug, Drop, Error)]
pub enum LoadFault {
    /// The catalogue is not TOML or not UTF-8.
    Toml,
    /// A key is missing or has another form than it should.
    Key(Key),
    /// An unknown or repeated column, as written.
    Column(Word),
    /// A kind does not fit, in this view.
    Kind(Word),
    /// A record has another length than the header, or a cell that is not UTF-8.
    Csv(usize),
    /// A number is malformed or out of range, or a count is not allowed, in this record.
    Number(usize),
    /// The header differs or is missing.
    Header,
    /// The sizes of this view are missing, double or out of range, or the name is no view's.
    Sizes(Word),
    /// A line of a strategy is at fault: the one of this number.
    Strategy(usize),
    /// A line of a plan is at fault: the one of this number.
    Plan(usize),
    /// A line of a schedule is at fault: the one of this number.
    Schedule(usize),
    /// A read failed.
    Read,
    /// Memory was refused.
    Memory,
    /// A part is missing, repeated, unknown or misplaced: the one of this word, the first of its heading.
    Part(Word),
    /// The input is longer than the limit.
    TooLong,
    /// The catalogue's views make no shape.
    Shape(ShapeFault),
}

impl LoadFault {
    /// Returns the fault's number, from 1 to 14. Lines of strategies, plans and schedules share one, and memory has one wherever it was
    /// refused.
    pub fn number(&self) -> u8
        ensures { result ≡ fault_number self.now }
    {
        match self {
            LoadFault::Toml => 1,
            LoadFault::Key(_) => 2,
            LoadFault::Column(_) => 3,
            LoadFault::Kind(_) => 4,
            LoadFault::Csv(_) => 5,
            LoadFault::Number(_) => 6,
            LoadFault::Header => 7,
            LoadFault::Sizes(_) => 8,
            LoadFault::Strategy(_) | LoadFault::Plan(_) | LoadFault::Schedule(_) => 9,
            LoadFault::Read => 10,
            LoadFault::Memory | LoadFault::Shape(ShapeFault::Memory) => 11,
            LoadFault::Part(_) => 12,
            LoadFault::TooLong => 13,
            LoadFault::Shape(_) => 14,
        }
    }

    /// Returns what the line that the program prints for the fault begins with, and what it ends with.
    fn line(&self) -> (&'static str, End<'_>)
        ensures { result.0.now ++ end_text result.1 ≡ fault_text self.now }
    {
        match self {
            LoadFault::Toml => ("fault toml", End::Word(b"")),
            LoadFault::Key(key) => ("fault key ", End::Word(key.text().as_bytes())),
            LoadFault::Column(column) => ("fault column ", End::Word(column.as_slice())),
            LoadFault::Kind(view) => ("fault kind ", End::Word(view.as_slice())),
            LoadFault::Csv(record) => ("fault csv ", End::Number(*record)),
            LoadFault::Number(record) => ("fault number ", End::Number(*record)),
            LoadFault::Header => ("fault header", End::Word(b"")),
            LoadFault::Sizes(view) => ("fault sizes ", End::Word(view.as_slice())),
            LoadFault::Strategy(line) => ("fault strategy ", End::Number(*line)),
            LoadFault::Plan(line) => ("fault plan ", End::Number(*line)),
            LoadFault::Schedule(line) => ("fault schedule ", End::Number(*line)),
            LoadFault::Read => ("fault read", End::Word(b"")),
            LoadFault::Memory => ("memory", End::Word(b"")),
            LoadFault::Part(heading) => ("fault part ", End::Word(heading.as_slice())),
            LoadFault::TooLong => ("fault toolong", End::Word(b"")),
            LoadFault::Shape(fault) => shape_line(fault),
        }
    }

    /// Appends the line that the program prints for the fault, without the LF, which the caller adds. A word stands as it was written, so
    /// the line need not be UTF-8. Where memory fails, nothing is appended.
    pub fn append_text(&self, alloc: Global, out: &mut Vec<u8>) -> Result<(), AllocError>
        ensures ok { OnOk result (out.new.items ≡ out.old.items ++ fault_text self.now) }
        ensures kept { OnErr result (out.new.items ≡ out.old.items) }
    {
        let (front, end) = self.line();
        let mut line = front.as_bytes().to_vec(alloc)?;
        match end {
            End::Word(word) => line.extend_from_slice(word)?,
            End::Number(number) => {
                let digits = format!(in alloc; "{number}")?;
                line.extend_from_slice(digits.as_bytes())?;
            }
        }
        out.extend_from_slice(&line)
    }
}

/// What the line of a fault ends with.
#[derive(Clone, Copy)]
enum End<'a> {
    /// A word, or nothing.
    Word(&'a [u8]),
    /// A number.
    Number(usize),
}

/// Returns what the line of a shape's fault begins with, and what it ends with.
fn shape_line(fault: &ShapeFault) -> (&'static str, End<'_>)
    ensures { result.0.now ++ end_text result.1 ≡ shape_text fault.now }
{
    let (front, name) = match fault {
        ShapeFault::Duplicate { name, .. } => ("fault shape duplicate ", name),
        ShapeFault::Unknown { child, .. } => ("fault shape unknown ", child),
        ShapeFault::Forward { child, .. } => ("fault shape forward ", child),
        ShapeFault::Repeated { child, .. } => ("fault shape repeated ", child),
        ShapeFault::TooMany { name, .. } => ("fault shape toomany ", name),
        ShapeFault::EmptyOver { name, .. } => ("fault shape empty ", name),
        ShapeFault::Memory => return ("memory", End::Word(b"")),
    };
    (front, End::Word(name.as_str().as_bytes()))
}

/// Writes the fault's line, with a word's bytes escaped where they are no plain ASCII.
impl Display for LoadFault {
    fn fmt<W: fmt::Write>(&self, f: &mut Formatter<W>) -> fmt::Result {
        let (front, end) = self.line();
        f.write_str(front)?;
        match end {
            End::Word(word) => word.escape_ascii().fmt(f),
            End::Number(number) => number.fmt(f),
        }
    }
}

impl From<AllocError> for LoadFault {
    ghost use Rattle.wh_text.specs.declared.fault.LoadFault.TheVariants.{Memory};

    ghost from_gives = { λ _ f. f ≡ Memory };

    fn from(_e: AllocError) -> LoadFault {
        LoadFault::Memory
    }
}

impl From<ShapeFault> for LoadFault {
    ghost use Rattle.std.specs.Prelude.{◌≢◌, ◌⊎◌};
    ghost use Rattle.wh_dag.specs.declared.fault.ShapeFault.TheVariants as shape_fault;
    ghost use Rattle.wh_text.specs.declared.fault.LoadFault.TheVariants as load_fault;

    // Refused memory is one fault wherever it was refused.
    ghost from_gives = { λ own f. ((own ≡ shape_fault.Memory) × (f ≡ load_fault.Memory))
        ⊎ ((own ≢ shape_fault.Memory) × (f ≡ load_fault.Shape own)) };

    fn from(own: ShapeFault) -> LoadFault {
        match own {
            ShapeFault::Memory => LoadFault::Memory,
            own => LoadFault::Shape(own),
        }
    }
}

impl<T: Drop> From<AllocFailed<T>> for LoadFault {
    ghost use Rattle.wh_text.specs.declared.fault.LoadFault.TheVariants.{Memory};

    ghost from_gives = { λ _ f. f ≡ Memory };

    fn from(_e: AllocFailed<T>) -> LoadFault {
        LoadFault::Memory
    }
}
