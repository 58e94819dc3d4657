// How long an input may be.

use crate::given::{
    BUNDLE, CARRIED, ENDLESS, GivenReader, GivenWriter, MEASURED, NIGHT, REPLIES, SCHEDULE,
};
use std::alloc::Global;
use std::fs::Files;
use std::process::Abort;
use std::sync::Wait;
use std::test::Fail;
use std::thread::Threads;
use whview::{CountedStream, run};

/// Asserts what these words answer to a bundle, and what they end with.
fn assert_answer<'a, R: Abort + Files + Threads + Wait + Sync>(
    rt: &R,
    alloc: Global,
    words: &'a [&'a str],
    bundle: &str,
    ends: u8,
    answer: &str,
) {
    let mut input = CountedStream::new(GivenReader::new(bundle.as_bytes(), 64));
    let mut out = CountedStream::new(GivenWriter::new(alloc, ENDLESS, true));
    assert_eq!(rt; run(rt, alloc, words, &mut input, &mut out), ends);
    assert!(rt; out.inner().text.as_slice() == answer.as_bytes());
}

/// Asserts that a bundle is answered where it may be as long as it is, and is too long where it may be a byte less.
fn assert_limited<'a, R: Abort + Files + Threads + Wait + Sync>(
    rt: &R,
    alloc: Global,
    command: &'a str,
    bundle: &str,
    answer: &str,
) -> Result<(), Fail> {
    let size = bundle.len();
    let exact = format!(in alloc; "--most={size}")?;
    let one_less = size.saturating_sub(1);
    let short = format!(in alloc; "--most={one_less}")?;
    let too_long = "fault toolong\n";
    assert_answer(rt, alloc, &[command, exact.as_str()], bundle, 0, answer);
    assert_answer(rt, alloc, &[command, short.as_str()], bundle, 3, too_long);
    assert_answer(
        rt,
        alloc,
        &[command, "--most=1099511627776"],
        bundle,
        0,
        answer,
    );
    assert_answer(rt, alloc, &[command, "--most=1"], bundle, 3, too_long);
    Ok(())
}

#[test]
fn an_input_may_be_as_long_as_its_option_says(rt: HostRuntime) -> Result<(), Fail> {
    let alloc = rt.alloc();
    let replayed = format!(in alloc; "{NIGHT}{SCHEDULE}")?;
    assert_limited(&rt, alloc, "night", NIGHT, CARRIED)?;
    assert_limited(&rt, alloc, "replay", replayed.as_str(), REPLIES)
}

#[test]
fn a_length_out_of_bounds_or_of_another_command_leaves_the_reader_unread(rt: HostRuntime) {
    for (command, option, bundle) in [
        ("night", "--most=0", NIGHT),
        ("night", "--most=1099511627777", NIGHT),
        ("replay", "--most=0", NIGHT),
        ("replay", "--most=", NIGHT),
        ("check", "--most=67108864", BUNDLE),
        ("plan", "--most=67108864", MEASURED),
        ("certify", "--most=67108864", MEASURED),
    ] {
        let mut input = CountedStream::new(GivenReader::new(bundle.as_bytes(), 64));
        let mut out = CountedStream::new(GivenWriter::new(rt.alloc(), ENDLESS, true));
        let status = run(&rt, rt.alloc(), &[command, option], &mut input, &mut out);
        assert_eq!(&rt; status, 2, "of {command} {option}");
        assert_eq!(&rt; input.inner().reads(), 0, "of {command} {option}");
    }
}

#[test]
fn the_words_of_an_input_do_not_say_how_long_it_may_be(rt: HostRuntime) -> Result<(), Fail> {
    let refused = "error: `--most` cannot stand in the words of an input\n";
    for words in ["night --most 4096", "night --most=4096", "--most"] {
        let text = format!(in rt.alloc(); "{words}\n{NIGHT}")?;
        assert_answer(&rt, rt.alloc(), &[], text.as_str(), 2, refused);
    }
    Ok(())
}
