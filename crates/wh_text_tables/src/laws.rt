//! Laws of which fault of a part is told, which proofs call.
ghost use Rattle.wh_text_tables.specs.SizesFaults.{SizesEndByFirst};
ghost use Rattle.wh_text_tables.specs.TableFaults.{TablesEndByFirst};

/// A law of the definitions: a text of sizes ends by its first fault, by records from the top and in each record by what is judged of it.
/// This is its form, its name (of no view, or a second time), and each of its numbers. Then come the range of each number of rows, how far
/// pre and post are apart, and the range of its weight. Below the last record it is the first view without a record. A text without these
/// faults is read.
pub fn sizes_end_by_first_law()
    ensures { SizesEndByFirst }
{}

/// A law of the definitions: a text of a table or of changes ends by its first fault. It goes by records from the top, and in each record
/// by what is judged of it. This is its form, its count, its cells from left to right, and how often it and the records above count its
/// row. A text without these faults is read.
pub fn tables_end_by_first_law()
    ensures { TablesEndByFirst }
{}
