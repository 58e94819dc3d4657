// Bundles: their parts with their texts, or the first fault from the top.

use crate::texts::cases::{Reads, agree, fault_line, text_of};
use std::alloc::{AllocError, Global};
use std::borrow::CowSlice;
use std::test::Fail;
use wh_load::{
    Bundle, Heading, InputSlice, LoadFault, Nights, Part, PartFault, Scope, Word, parts,
};

const TWO_NIGHTS: &str = "
 \t\r
@catalogue\r
[[view]]\r
@data a\r
x,y\r
1,2\r
@strategy
comp V from A\r
@@x
@changes a \t
#,x
@night
\r
@changes a
@strategy
inst V";

const ALL_NIGHTS: &str = "0 catalogue
0 strategy
1 night

 \t
2 night
2 strategy
2 changes a
----
@catalogue
@strategy
@night
\r
 \t\r
@night
@strategy
@changes a
====
12 fault part night
----
@night
x
@foo
====
12 fault part catalogue
----
@catalogue
@catalogue
====
12 fault part catalogue
----
@catalogue
@night
@catalogue\r
====
12 fault part sizes
----
@sizes
@sizes
====
12 fault part schedule
----
@schedule
@schedule
====
12 fault part strategy
----
@strategy
@strategy
====
12 fault part data
----
@data a
@night
@data a
====
0 data a
0 data b
0 data  a
----
@data a
@data b
@data  a
====
12 fault part changes
----
@changes a
@changes a
";

const FIRST_NIGHT: &str = "----
====
----
 \t\r

====
0 plan
----
@plan \t\r
====
12 fault part night
----
@night
@foo
====
12 fault part data
----
@data a
@data a
@foo
====
12 fault part foo
----
@foo
@data a
@data a
====
12 fault part text
----
x
@foo
====
12 fault part catalogue
----
@ catalogue
====
12 fault part catalogue
----
@catalogue x
====
12 fault part Catalogue
----
@Catalogue
====
12 fault part data
----
@data
====
12 fault part data
----
@data \t
====
12 fault part data
----
@data\ta
====
12 fault part text
----
@ \t
====
12 fault part text
----
@====
12 fault part plan\r
----
@plan\r====
12 fault part \u{ff}
----
@\u{ff} x
====
12 fault part text
----

@@x
====
12 fault part text
----
\r====
12 fault part text
----
\u{b}
@plan
";

const NO_NIGHTS: &str = "12 fault part foo
----
@night
x
@foo
====
12 fault part plan
----
@plan
@plan
====
1 night
x
2 night
y
----
@night
x
@night
y
";

/// What a part's heading is, and the name that it has.
fn spelled<'a>(heading: &Heading<'a>) -> (&'static str, &'a [u8]) {
    match heading {
        Heading::Catalogue => ("catalogue", b""),
        Heading::Sizes => ("sizes", b""),
        Heading::Strategy => ("strategy", b""),
        Heading::Plan => ("plan", b""),
        Heading::Schedule => ("schedule", b""),
        Heading::Night => ("night", b""),
        Heading::Data(name) => ("data ", name.as_slice()),
        Heading::Changes(name) => ("changes ", name.as_slice()),
    }
}

/// The text of a part, lent or made.
fn part_text(alloc: Global, part: &Part<'_>) -> Result<String, AllocError> {
    match part.text(alloc)? {
        CowSlice::Borrowed(found) => text_of(alloc, found),
        CowSlice::Owned(found) => text_of(alloc, &found),
    }
}

/// A line for each part, with its night and heading, and then its text.
fn part_lines(alloc: Global, bundle: &Bundle<'_>) -> Result<String, AllocError> {
    let mut text = String::new(alloc);
    for part in bundle.parts() {
        let (word, name) = spelled(&part.heading);
        let (night, name) = (part.night, text_of(alloc, name)?);
        text.push_str(format!(in alloc; "{night} {word}{name}\n")?.as_str())?;
        text.push_str(part_text(alloc, part)?.as_str())?;
    }
    Ok(text)
}

/// The parts, each with its night, its heading and its text, or the fault.
pub(crate) fn outcome(alloc: Global, nights: Nights, text: &[u8]) -> Result<String, AllocError> {
    match parts(alloc, text, nights) {
        Ok(bundle) => part_lines(alloc, &bundle),
        Err(PartFault::Part(word)) => fault_line(alloc, &LoadFault::Part(word)),
        Err(PartFault::Memory) => fault_line(alloc, &LoadFault::Memory),
    }
}

#[test]
fn two_nights_are_cut_into_their_parts(rt: HostRuntime) -> Result<(), AllocError> {
    let want = "0 catalogue
[[view]]
0 data a
x,y\r
1,2\r
0 strategy
comp V from A
@x
0 changes a
#,x
1 night

1 changes a
1 strategy
inst V----
";
    agree(
        &rt,
        rt.alloc(),
        Reads::Bundle(Nights::All),
        TWO_NIGHTS,
        want,
    )
}

#[test]
fn bundles_are_cut_or_their_first_fault_is_told(rt: HostRuntime) -> Result<(), AllocError> {
    let alloc = rt.alloc();
    agree(&rt, alloc, Reads::Bundle(Nights::All), "", ALL_NIGHTS)?;
    agree(&rt, alloc, Reads::Bundle(Nights::First), "", FIRST_NIGHT)?;
    agree(&rt, alloc, Reads::Bundle(Nights::Ignored), "", NO_NIGHTS)
}

/// The texts of the parts with these headings in each of three nights.
fn found_texts(
    alloc: Global,
    bundle: &Bundle<'_>,
    headings: &[Heading<'_>],
) -> Result<String, AllocError> {
    let mut text = String::new(alloc);
    for night in 0..3 {
        let len = bundle.night(night).len();
        text.push_str(format!(in alloc; "{len} parts;")?.as_str())?;
        for heading in headings {
            match bundle.find(heading, night) {
                Some(part) => text.push_str(part_text(alloc, part)?.as_str())?,
                None => text.push_str("none")?,
            }
            text.push_str(";")?;
        }
    }
    Ok(text)
}

/// What is found in the bundle of two nights.
fn found_in_nights(alloc: Global) -> Result<String, AllocError> {
    let Ok(bundle) = parts(alloc, TWO_NIGHTS.as_bytes(), Nights::All) else {
        return String::from_str(alloc, "no bundle");
    };
    let headings = [
        Heading::Catalogue,
        Heading::Strategy,
        Heading::Data(InputSlice::new(b"b")),
        Heading::Changes(InputSlice::new(b"a")),
    ];
    let nights = bundle.nights();
    let texts = found_texts(alloc, &bundle, &headings)?;
    Ok(format!(in alloc; "{nights} nights;{texts}")?)
}

#[test]
fn a_part_is_found_in_its_night(rt: HostRuntime) -> Result<(), AllocError> {
    let want =
        "2 nights;4 parts;[[view]]\n;comp V from A\n@x\n;none;#,x\n;3 parts;[[view]]\n;inst V;none;;0 parts;[[view]]\n;none;none;none;";
    assert_eq!(&rt; found_in_nights(rt.alloc())?.as_str(), want);
    Ok(())
}

/// For each part whether its text is lent or made.
fn lent_or_made(alloc: Global, text: &[u8]) -> Result<String, AllocError> {
    let mut words = String::new(alloc);
    let Ok(bundle) = parts(alloc, text, Nights::First) else {
        return Ok(words);
    };
    for part in bundle.parts() {
        let is_lent = matches!(part.text(alloc), Ok(CowSlice::Borrowed(_)));
        words.push_str(if is_lent { "lent " } else { "made " })?;
    }
    Ok(words)
}

#[test]
fn a_text_is_lent_where_nothing_changes(rt: HostRuntime) -> Result<(), AllocError> {
    let text = b"@data a\nx@y.z\r\n@plan\nbound\n@sizes\n@@\n";
    assert_eq!(&rt; lent_or_made(rt.alloc(), text)?.as_str(), "lent lent made ");
    Ok(())
}

#[test]
fn a_word_gives_its_bytes_back(rt: HostRuntime) -> Result<(), Fail> {
    let word = Word::new(rt.alloc(), b"ab")?;
    let word = Word::from_vec(word.into_vec());
    assert!(&rt; word.as_slice() == b"ab".as_slice());
    assert!(&rt; PartFault::Part(word).number() == 12 && PartFault::Memory.number() == 11);
    assert!(&rt;
        Heading::Night.scope() == Scope::Any
            && Heading::Night.is_night()
            && !Heading::Night.is_csv()
    );
    Ok(())
}
