//! Reads a CSV part by the scheme of its sort: its header, and then its records one by one.

ghost use Rattle.std.specs.Prelude.{◌≡◌, ◌⊎◌, ◌+◌, ◌^◌, ◌≤◌, ℕ, length, IfOk, IfErr, OnOk, OnErr, Ok, Err};
ghost use Rattle.std.specs.Result.{result_err};
ghost use Rattle.csv.specs.Records.{fields_of};
ghost use Rattle.wh_text_tables.specs.Part.{Scheme, below_header, part_of};
ghost use Rattle.wh_text_tables.specs.Inner.Part.{IsReadTo, IsWidthOf, TakenTo};
ghost use Rattle.wh_text_tables.specs.Records.{records_of};

use crate::records::CsvRecords;
use csv::StringRecord;
use std::alloc::Global;
use wh_text::LoadFault;

/// What reads the parts of one sort: it knows their header, and takes the records below it.
pub(crate) trait PartReader {
    /// What a header tells of the records below it.
    type Kind: Copy;
    /// What the records that were taken give.
    type State;

    // A state as the scheme sees it.
    ghost Seen: { Type 0 };

    ghost seen: { Self.State → Self.Seen };

    // The scheme by which it reads.
    ghost scheme: { Self → Scheme Self.Kind Self.Seen };

    // What holds of a state before the record of this number.
    ghost is_ready: { Self → Self.Seen → ℕ → Type 0 };

    /// The kind that a header of these cells tells, if they are a header.
    fn kind(&self, header: &StringRecord) -> Option<Self::Kind>
        ensures { result ≡ (scheme self.now).kind_of (fields_of header.now) };

    /// Takes the record of this number and of these cells, as many as a header of the kind has. A fault leaves the state
    /// as it was.
    fn take(
        &self,
        kind: Self::Kind,
        number: usize,
        cells: &StringRecord,
        state: &mut Self::State,
    ) -> Result<(), LoadFault>
        requires wide { IsWidthOf (scheme self.now) kind (length (fields_of cells.now)) }
        requires ready { is_ready self.now (seen state.old) number }
        ensures ok { OnOk result ((scheme self.now).take kind (seen state.old) number (fields_of cells.now) ≡ Ok (seen state.new)) }
        ensures ready { OnOk result (is_ready self.now (seen state.new) (number + 1)) }
        ensures err { IfErr result (λ f. (f ≡ LoadFault.Memory) ⊎ ((scheme self.now).take kind (seen state.old) number (fields_of cells.now) ≡ Err f)) }
        ensures kept { OnErr result (seen state.new ≡ seen state.old) };
}

/// Returns what the first record tells, the header.
pub(crate) fn read_kind<R: PartReader>(
    reader: &R,
    records: &mut CsvRecords<'_>,
    cells: &mut StringRecord,
) -> Result<R::Kind, LoadFault>
    requires { records.old.given ≡ 0 }
    ensures ok { IfOk result (λ kind. below_header (R.scheme reader.now) records.old.left ≡ Ok (record { kind = kind; width = length (fields_of cells.new); rows = records.new.left })) }
    ensures given { OnOk result (records.new.given ≡ 1) }
    ensures err { IfErr result (λ f. (f ≡ LoadFault.Memory) ⊎ (below_header (R.scheme reader.now) records.old.left ≡ Err f)) }
{
    if !records.read(cells)? {
        return Err(LoadFault::Header);
    }
    match reader.kind(cells) {
        Some(kind) => Ok(kind),
        None => Err(LoadFault::Header),
    }
}

/// Takes the records below the header, up to the first that has a fault.
pub(crate) fn read_rows<R: PartReader>(
    reader: &R,
    kind: R::Kind,
    width: usize,
    records: &mut CsvRecords<'_>,
    cells: &mut StringRecord,
    state: &mut R::State,
) -> Result<(), LoadFault>
    requires first { records.old.given ≡ 1 }
    requires wide { IsWidthOf (R.scheme reader.now) kind width }
    requires ready { R.is_ready reader.now (R.seen state.old) 2 }
    ensures taken { TakenTo (R.scheme reader.now) (record { kind = kind; width = width; rows = records.old.left }) (R.seen state.old) (R.seen state.new) (result_err result) }
    ensures ready { (number : ℕ) × R.is_ready reader.now (R.seen state.new) number × (number ≤ 2 ^ 64) }
{
    'rows: while records.read_row(width, cells)? {
        reader.take(kind, records.number(), cells, state)?;
    }
    Ok(())
}

/// Reads the part: its records are taken one by one, up to the first fault of the part or until memory is refused.
pub(crate) fn read_part<R: PartReader>(
    alloc: Global,
    reader: &R,
    text: &[u8],
    state: &mut R::State,
) -> Result<(), LoadFault>
    requires { R.is_ready reader.now (R.seen state.old) 2 }
    ensures read { IsReadTo (R.scheme reader.now) (records_of text.now) (R.seen state.old) (R.seen state.new) (result_err result) }
    ensures ok { OnOk result (part_of (R.scheme reader.now) (R.seen state.old) text.now ≡ Ok (R.seen state.new)) }
    ensures err { IfErr result (λ f. (f ≡ LoadFault.Memory) ⊎ (part_of (R.scheme reader.now) (R.seen state.old) text.now ≡ Err f)) }
    ensures ready { (number : ℕ) × R.is_ready reader.now (R.seen state.new) number × (number ≤ 2 ^ 64) }
{
    let mut records = CsvRecords::new(alloc, text);
    let mut cells = StringRecord::new(alloc);
    let kind = read_kind(reader, &mut records, &mut cells)?;
    let width = cells.len();
    read_rows(reader, kind, width, &mut records, &mut cells, state)
}
