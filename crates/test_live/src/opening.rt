// Openings of a warehouse that stays: what they give, or the first fault.

use crate::later::{fault_text, text_of};
use std::alloc::{AllocError, Global};
use std::test::Fail;
use std::thread::Threads;
use wh_load::{ChunkedText, Dict, Names, Opening, write_table};
use wh_opening::{OpeningInput, read_opening};
use wh_threads::ThreadBudget;

/// Base views `a` of texts and numbers and `b` of texts, and a view over `a` with a text of its own.
const CATALOGUE: &str = "@catalogue
[[view]]
name = \"a\"
columns = [\"x:text\", \"n\"]
[[view]]
name = \"b\"
columns = [\"y:text\"]
[[view]]
name = \"v\"
over = [\"a\"]
where = [\"<>\", \"a.x\", { text = \"none\" }]
keep = [[\"x\", \"a.x\"]]
";

/// A catalogue of one base view.
const SMALL: &str = "@catalogue\nview = [{ name = \"a\", columns = [\"x\"] }]\n";

/// A catalogue of one base view with two columns of one name.
const TWICE: &str = "@catalogue\nview = [{ name = \"a\", columns = [\"x\", \"x\"] }]\n";

/// Openings: a catalogue, the other parts, and what is read. The catalogue's text has the first number, then come those of `a`, though its
/// table stands below that of `b`.
static OPENINGS: [(&str, &str, &str); 4] = [
    (
        CATALOGUE,
        "@strategy\ncomp v from a\ninst a\ninst v\n@data b\ny\nthree\ntwo\n@data a\nx,n\none,1\ntwo,2\none,1\n",
        "views a b v
texts none one two three
#,x,n
2,one,1
1,two,2
#,y
1,two
1,three
#,x
strategy
comp v from a
inst a
inst v
",
    ),
    (
        CATALOGUE,
        "@data b\ny\nnone\n",
        "views a b v
texts none
#,x,n
#,y
1,none
#,x
no strategy
",
    ),
    (SMALL, "@strategy\n", "views a\ntexts\n#,x\nstrategy\n"),
    (
        SMALL,
        "@data a\n#,x\n3,-7\n",
        "views a\ntexts\n#,x\n3,-7\nno strategy\n",
    ),
];

/// A catalogue, the other parts, and their first fault.
static FAULTS: [(&str, &str, &str); 22] = [
    // of the headings, from the top
    (CATALOGUE, "@night\n", "fault part night"),
    ("", "@changes a\n#,x,n\n@night\n", "fault part night"),
    ("@catalogue\n=\n", "@data a\n@data a\n", "fault part data"),
    (CATALOGUE, "@tables\n", "fault part tables"),
    // the catalogue that is missing
    ("", "", "fault part catalogue"),
    (
        "",
        "@sizes\n@data a\nx\n@strategy\nfoo\n",
        "fault part catalogue",
    ),
    // of the catalogue's text
    ("@catalogue\n=\n", "@changes a\n#,x,n\n", "fault toml"),
    (TWICE, "@sizes\n", "fault column x"),
    // the first part that no opening has
    (
        CATALOGUE,
        "@changes a\n#,x,n\n1,one,1\n",
        "fault part changes",
    ),
    (CATALOGUE, "@data v\nx\none\n", "fault part data"),
    (CATALOGUE, "@data w\nx\none\n", "fault part data"),
    (CATALOGUE, "@sizes\n", "fault part sizes"),
    (CATALOGUE, "@plan\n", "fault part plan"),
    (CATALOGUE, "@schedule\n", "fault part schedule"),
    (CATALOGUE, "@sizes\n@changes a\n#,x,n\n", "fault part sizes"),
    (
        CATALOGUE,
        "@data a\nx,n\none,b\n@changes a\n#,x,n\n",
        "fault part changes",
    ),
    // of the tables, view by view
    (CATALOGUE, "@data a\nx,n\none,1\none,b\n", "fault number 3"),
    (
        CATALOGUE,
        "@data b\nz\n@data a\nx,n\none,b\n",
        "fault number 2",
    ),
    (CATALOGUE, "@strategy\nfoo\n@data b\nz\n", "fault header"),
    // of the strategy's text
    (CATALOGUE, "@strategy\ninst a\nfoo\n", "fault strategy 2"),
    (
        CATALOGUE,
        "@strategy\ninst w\n@data a\nx,n\none,1\n",
        "fault strategy 1",
    ),
    (SMALL, "@strategy\n\ncomp v from a\n", "fault strategy 2"),
];

/// The bytes of a catalogue and of what stands below it.
fn bytes_of(alloc: Global, catalogue: &str, parts: &str) -> Result<Vec<u8>, AllocError> {
    let mut bytes = Vec::new(alloc);
    bytes.extend_from_slice(catalogue.as_bytes())?;
    bytes.extend_from_slice(parts.as_bytes())?;
    Ok(bytes)
}

/// The names of the views, on a line.
fn names_line(alloc: Global, names: &Names) -> Result<String, AllocError> {
    let mut text = format!(in alloc; "views")?;
    for view in 0..names.len() {
        text.push_str(" ")?;
        text.push_str(names.name(view))?;
    }
    text.push_str("\n")?;
    Ok(text)
}

/// The texts that cells stand for, in the order of their numbers, on a line.
fn texts_line(alloc: Global, texts: &Dict) -> Result<String, AllocError> {
    let mut text = format!(in alloc; "texts")?;
    for number in 0..1000 {
        let Some(word) = texts.text(number) else {
            break;
        };
        text.push_str(" ")?;
        text.push_str(word)?;
    }
    text.push_str("\n")?;
    Ok(text)
}

/// The tables as they are written, one behind the other.
fn tables_text<R: Threads + Sync>(
    budget: &ThreadBudget<'_, R>,
    opening: &Opening,
) -> Result<String, AllocError> {
    let mut out = ChunkedText::new(budget.alloc);
    for (view, own) in opening.views.iter().zip(&opening.tables) {
        write_table(budget, &mut out, &view.columns, own, &opening.texts)?;
    }
    let chunks = out.chunks();
    let mut bytes = Vec::new(budget.alloc);
    for chunk in chunks.finished {
        bytes.extend_from_slice(chunk)?;
    }
    bytes.extend_from_slice(chunks.last)?;
    text_of(budget.alloc, &bytes)
}

/// All that was read of an opening.
fn opening_text<R: Threads + Sync>(
    budget: &ThreadBudget<'_, R>,
    input: &OpeningInput,
) -> Result<String, AllocError> {
    let alloc = budget.alloc;
    let names = Names::of(alloc, &input.shape)?;
    let mut text = names_line(alloc, &names)?;
    text.push_str(texts_line(alloc, &input.opening.texts)?.as_str())?;
    text.push_str(tables_text(budget, &input.opening)?.as_str())?;
    match &input.strategy {
        Some(own) => {
            text.push_str("strategy\n")?;
            text.push_str(text_of(alloc, own)?.as_str())?;
        }
        None => text.push_str("no strategy\n")?,
    }
    Ok(text)
}

/// What is told of an opening.
fn told<R: Threads + Sync>(
    budget: &ThreadBudget<'_, R>,
    catalogue: &str,
    parts: &str,
) -> Result<String, AllocError> {
    let bytes = bytes_of(budget.alloc, catalogue, parts)?;
    match read_opening(budget, &bytes) {
        Ok(input) => opening_text(budget, &input),
        Err(fault) => fault_text(budget.alloc, &fault),
    }
}

#[test]
fn what_nights_begin_from_is_read(rt: HostRuntime) -> Result<(), Fail> {
    let budget = ThreadBudget {
        rt: &rt,
        alloc: rt.alloc(),
        threads: 1,
    };
    for (catalogue, parts, wanted) in &OPENINGS {
        let said = told(&budget, catalogue, parts)?;
        assert_eq!(&rt; said.as_str(), *wanted);
    }
    Ok(())
}

#[test]
fn of_two_faults_of_an_opening_the_first_is_told(rt: HostRuntime) -> Result<(), Fail> {
    let budget = ThreadBudget {
        rt: &rt,
        alloc: rt.alloc(),
        threads: 1,
    };
    for (catalogue, parts, wanted) in &FAULTS {
        let said = told(&budget, catalogue, parts)?;
        assert_eq!(&rt; said.as_str(), *wanted);
    }
    Ok(())
}
