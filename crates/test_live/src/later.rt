// Nights that come later, one after another over the same texts.

use std::alloc::{AllocError, Global};
use std::test::Fail;
use std::thread::Threads;
use wh_later::{StandingViews, read_later_night};
use wh_load::{Dict, GivenNight, LoadFault, Names, NightInput, Opening, read_for_night};
use wh_threads::ThreadBudget;

/// A base view `a` of texts with one row, and a view over it.
const OPENING: &[u8] = b"@catalogue
[[view]]
name = \"a\"
columns = [\"x:text\"]
[[view]]
name = \"v\"
over = [\"a\"]
keep = [[\"x\", \"a.x\"]]
@data a
x
one
@strategy
";

const STANDING: &str = "comp v from a\ninst a\ninst v\n";

/// Nights, and how many rows change, how many expressions there are and how many texts stand after each; or its first fault, and the texts.
static NIGHTS: [(&str, &str); 9] = [
    ("@changes a\n#,x\n1,two\n-1,one\n", "2 3 2"),
    ("@changes a\n#,x\n1,three\nx,four\n", "fault number 3 2"),
    ("@strategy\ninst a\n@changes a\n#,x\n1,three\n", "1 1 3"),
    ("@changes v\n#,x\n", "fault part changes 3"),
    ("@changes a\n#,x\n1,four\n@data a\nx\n", "fault part data 3"),
    ("@changes a\n#,x\n1,four\n@night\n", "fault part night 3"),
    (
        "@changes a\n#,x\n1,four\n@strategy\ninst a\nfoo\n",
        "fault strategy 2 3",
    ),
    ("commit\n", "fault part text 3"),
    ("", "0 3 3"),
];

/// How many rows change and how many expressions there are.
fn night_text(alloc: Global, night: &GivenNight) -> Result<String, AllocError> {
    let mut rows: usize = 0;
    for own in &night.changes {
        rows = rows.saturating_add(own.len());
    }
    let list = night.strategy.as_slice().len();
    format!(in alloc; "{rows} {list}")
}

/// The characters that stand for the bytes.
pub(crate) fn text_of(alloc: Global, bytes: &[u8]) -> Result<String, AllocError> {
    let mut text = String::new(alloc);
    for byte in bytes {
        text.push(char::from(*byte))?;
    }
    Ok(text)
}

/// The line of a fault.
pub(crate) fn fault_text(alloc: Global, fault: &LoadFault) -> Result<String, AllocError> {
    let mut line = Vec::new(alloc);
    fault.append_text(alloc, &mut line)?;
    text_of(alloc, &line)
}

/// What is told of a later night, and how many texts stand after it.
fn told<R: Threads + Sync>(
    budget: &ThreadBudget<'_, R>,
    standing: &StandingViews<'_>,
    texts: &mut Dict,
    bytes: &[u8],
) -> Result<String, AllocError> {
    let own = match read_later_night(budget, standing, texts, bytes) {
        Ok(night) => night_text(budget.alloc, &night)?,
        Err(fault) => fault_text(budget.alloc, &fault)?,
    };
    let count = texts.len();
    format!(in budget.alloc; "{} {count}", own.as_str())
}

#[test]
fn later_nights_are_read_over_the_texts_that_stand(rt: HostRuntime) -> Result<(), Fail> {
    let budget = ThreadBudget {
        rt: &rt,
        alloc: rt.alloc(),
        threads: 1,
    };
    let NightInput {
        shape,
        opening,
        given: _given,
    } = read_for_night(&budget, OPENING)
        .ok()
        .expect(&rt, "an opening");
    let Opening {
        views,
        texts,
        tables: _tables,
    } = opening;
    let mut texts = texts;
    let names = Names::of(budget.alloc, &shape)?;
    let strategy = format!(in budget.alloc; "{STANDING}")?;
    assert!(&rt; views.len() == names.len());
    let stands = Some(strategy.as_bytes());
    let standing = StandingViews {
        names: &names,
        views: &views,
        strategy: stands,
    };
    for (night, wanted) in &NIGHTS {
        let said = told(&budget, &standing, &mut texts, night.as_bytes())?;
        assert_eq!(&rt; said.as_str(), *wanted);
    }
    Ok(())
}
