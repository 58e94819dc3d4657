//! Reads the records of a CSV part one by one, with what all readers of such parts ask of them.

ghost use Rattle.std.specs.Prelude.{◌≡◌, ◌⊎◌, ◌+◌, ◌≤◌, ◌∷◌, [], IfOk, IfErr, IfSome, FitsSigned, length, map, None, Some, Ok, true};
ghost use Rattle.std.specs.Cmp.Lexicographic.{pointwise};
ghost use Rattle.std.specs.Int.{w64};
ghost use Rattle.std.specs.Str.{bytes_eq};
ghost use Rattle.std.specs.Bool.{MatchBool};
ghost use Rattle.csv.specs.Records.{fields_of};
ghost use Rattle.wh_text_tables.specs.Records.{cell, form_fault, records_of};
ghost use Rattle.csv.specs.Reading.{error_kind};
ghost use Rattle.wh_text.specs.WholeNumber.{whole_number};
ghost use Rattle.wh_text_tables.specs.Inner.Unread.{FailsNext, Gives, read_fault};

use csv::{ErrorKind, Reader, ReaderBuilder, StringRecord};
use std::alloc::Global;
use std::marker::Model;
use wh_text::LoadFault;

/// The records of a part, read one by one. They are numbered from 1, the header being the first.
#[derive(Drop)]
pub(crate) struct CsvRecords<'a> {
    reader: Reader<&'a [u8]>,
    given: usize,
    ended: bool,
}

impl<'a> Model for CsvRecords<'a> {
    ghost use Rattle.wh_text.specs.WholeNumber.{whole_number};
    ghost use Rattle.wh_text_tables.specs.Unread.{Unread, left_of};
    ghost use Rattle.wh_text_tables.specs.Inner.Unread.{IsCounted};

    ghost Value = { Unread };

    ghost view = { λ r. record { given = r.given; left = left_of r.ended r.reader } };

    ghost invariant = { λ r. IsCounted r.ended r.reader r.given };
}

impl<'a> CsvRecords<'a> {
    /// Returns the records of this text, none of them given yet.
    pub(crate) fn new(alloc: Global, text: &'a [u8]) -> CsvRecords<'a>
        ensures { result ≡ record { given = 0; left = records_of text.now } }
    {
        CsvRecords::behind(alloc, 0, text)
    }

    /// Returns the records of this text that stands below a header, none of them given yet.
    pub(crate) fn below_header(alloc: Global, text: &'a [u8]) -> CsvRecords<'a>
        ensures { result ≡ record { given = 1; left = records_of text.now } }
    {
        CsvRecords::behind(alloc, 1, text)
    }

    /// The records of this text behind so many that were given.
    fn behind(alloc: Global, given: usize, text: &'a [u8]) -> CsvRecords<'a>
        requires { given ≤ 1 }
        ensures { result ≡ record { given = given; left = records_of text.now } }
    {
        let reader = ReaderBuilder::new()
            .has_headers(false)
            .flexible(true)
            .from_reader(alloc, text);
        CsvRecords {
            reader,
            given,
            ended: false,
        }
    }

    /// Returns the number of the record that was given last.
    pub(crate) fn number(&self) -> usize
        ensures { result ≡ self.now.given }
    {
        self.given
    }

    /// Puts the next record into `cells`, and says whether there was one. After an error there is none.
    pub(crate) fn read(&mut self, cells: &mut StringRecord) -> Result<bool, LoadFault>
        ensures ok { IfOk result (λ more. MatchBool more (Gives self.old (fields_of cells.new) self.new) (self.old.left ≡ [])) }
        ensures formed { result ≡ Ok true → form_fault (length (fields_of cells.new)) self.new.given (fields_of cells.new) ≡ None }
        ensures err { IfErr result (λ f. (f ≡ LoadFault.Memory) ⊎ FailsNext self.old (λ number cells. form_fault (length cells) number cells) f) }
    {
        if self.ended {
            return Ok(false);
        }
        match self.reader.read_record(cells) {
            Ok(true) => {
                self.given += 1;
                Ok(true)
            }
            Ok(false) => {
                self.ended = true;
                Ok(false)
            }
            Err(error) => {
                self.ended = true;
                Err(read_fault(error, self.given + 1))
            }
        }
    }

    /// Reads the next record into `cells`, which has to have as many cells as the header, `width`; gives whether there was one.
    pub(crate) fn read_row(
        &mut self,
        width: usize,
        cells: &mut StringRecord,
    ) -> Result<bool, LoadFault>
        ensures ok { IfOk result (λ more. MatchBool more (Gives self.old (fields_of cells.new) self.new) (self.old.left ≡ [])) }
        ensures formed { result ≡ Ok true → form_fault width self.new.given (fields_of cells.new) ≡ None }
        ensures err { IfErr result (λ f. (f ≡ LoadFault.Memory) ⊎ FailsNext self.old (form_fault width) f) }
    {
        if !self.read(cells)? {
            return Ok(false);
        }
        if cells.len() != width {
            return Err(LoadFault::Csv(self.number()));
        }
        Ok(true)
    }
}

/// The fault of a record that could not be read: a slice gives no error of its own, so what is no fault of the record is
/// want of memory.
fn read_fault(error: csv::Error, number: usize) -> LoadFault
    ensures { result ≡ read_fault number (error_kind error) }
{
    match error.into_kind() {
        ErrorKind::Utf8 { .. } => LoadFault::Csv(number),
        _ => LoadFault::Memory,
    }
}

/// Returns the cell at this place, the first at 0; empty where there is none.
pub(crate) fn cell(cells: &StringRecord, place: usize) -> &str
    ensures { result.now ≡ cell (fields_of cells.now) place }
{
    cells.get(place).unwrap_or("")
}

/// Tells whether these are the cells of the record.
pub(crate) fn are_cells(cells: &StringRecord, words: &[&str]) -> bool
    ensures { result ≡ pointwise bytes_eq (fields_of cells.now) (map (λ word. word.now) words.now) }
{
    if cells.len() != words.len() {
        return false;
    }
    for (place, word) in words.iter().enumerate() {
        if cell(cells, place) != *word {
            return false;
        }
    }
    true
}

/// The number that digits alone write; none for any other text, and where it is large, though that may be a number too.
fn plain_number(text: &[u8]) -> Option<i64>
    ensures { IfSome result (λ number. whole_number text.now ≡ Some number) }
{
    if text.is_empty() {
        return None;
    }
    let mut number: u64 = 0;
    'digits: for place in 0..text.len() {
        let byte = text[place];
        if !byte.is_ascii_digit() {
            return None;
        }
        number = number.checked_mul(10)?.checked_add(u64::from(byte - b'0'))?;
    }
    i64::try_from(number).ok()
}

/// Returns the whole number that a cell writes, if it is one: a sign or none and one or more digits, within i64.
pub(crate) fn whole_number(text: &str) -> Option<i64>
    ensures value { result ≡ whole_number text.now }
    ensures fits { IfSome result (λ number. FitsSigned w64 number) }
{
    // Most cells are plain digits, which this loop reads faster than `parse`.
    if let Some(number) = plain_number(text.as_bytes()) {
        return Some(number);
    }
    text.parse::<i64>().ok()
}
