// The program over readers and writers of every kind.

use crate::given::{
    ANSWER, BUNDLE, CARRIED, CHANGED, ENDLESS, EVENTS, Endless, GivenReader, GivenWriter, Halting,
    MEASURED, NIGHT, NIGHTS, OF_THREE, OF_TWO, PLANNED, REPLIES, SCHEDULE, TWO, TWO_CHANGED,
};
use std::alloc::Global;
use std::fs::Files;
use std::process::Abort;
use std::sync::Wait;
use std::test::Fail;
use std::thread::Threads;
use whview::{CountedStream, run, want_of_memory, words_without_text};

#[test]
fn a_reader_that_gives_a_byte_at_a_time_is_answered(rt: HostRuntime) -> Result<(), Fail> {
    for (command, bundle, answer) in [("check", BUNDLE, ANSWER), ("night", NIGHT, CARRIED)] {
        let mut input = CountedStream::new(GivenReader::new(bundle.as_bytes(), 1));
        let mut out = CountedStream::new(GivenWriter::new(rt.alloc(), ENDLESS, true));
        let status = run(&rt, rt.alloc(), &[command], &mut input, &mut out);
        assert_eq!(&rt; status, 0, "of {command}");
        assert!(&rt;
            out.inner().text.as_slice() == answer.as_bytes(),
            "of {command}"
        );
    }
    Ok(())
}

#[test]
fn a_night_prints_changes_where_they_are_asked_for(rt: HostRuntime) -> Result<(), Fail> {
    for (what, bundle, answer) in [
        ("tables", NIGHT, CARRIED),
        ("changes", NIGHT, CHANGED),
        ("changes", TWO, TWO_CHANGED),
    ] {
        let mut input = CountedStream::new(GivenReader::new(bundle.as_bytes(), 4096));
        let mut out = CountedStream::new(GivenWriter::new(rt.alloc(), ENDLESS, true));
        let words = ["night", "--print", what];
        let status = run(&rt, rt.alloc(), &words, &mut input, &mut out);
        assert_eq!(&rt; status, 0, "with {what}");
        assert!(&rt;
            out.inner().text.as_slice() == answer.as_bytes(),
            "with {what}"
        );
    }
    Ok(())
}

#[test]
fn plans_certificates_and_replays_are_answered(rt: HostRuntime) -> Result<(), Fail> {
    let certified = format!(in rt.alloc(); "{MEASURED}@plan\n{PLANNED}")?;
    let replayed = format!(in rt.alloc(); "{NIGHT}{SCHEDULE}")?;
    for (command, bundle, answer) in [
        ("plan", MEASURED, PLANNED),
        ("certify", certified.as_str(), "certified all work 154\n"),
        ("replay", replayed.as_str(), REPLIES),
    ] {
        let mut input = CountedStream::new(GivenReader::new(bundle.as_bytes(), 4096));
        let mut out = CountedStream::new(GivenWriter::new(rt.alloc(), ENDLESS, true));
        let status = run(&rt, rt.alloc(), &[command], &mut input, &mut out);
        assert_eq!(&rt; status, 0, "of {command}");
        assert!(&rt;
            out.inner().text.as_slice() == answer.as_bytes(),
            "of {command}"
        );
    }
    Ok(())
}

#[test]
fn as_many_versions_are_kept_as_the_schedule_says(rt: HostRuntime) -> Result<(), Fail> {
    for (line, answer, ends) in [
        ("", OF_TWO, 0),
        ("versions 2\n", OF_TWO, 0),
        ("versions 3\n", OF_THREE, 0),
        ("versions 5\n", "fault schedule 4\n", 3),
    ] {
        let bundle = format!(in rt.alloc(); "{NIGHTS}{line}{EVENTS}")?;
        let mut input = CountedStream::new(GivenReader::new(bundle.as_bytes(), 4096));
        let mut out = CountedStream::new(GivenWriter::new(rt.alloc(), ENDLESS, true));
        let status = run(&rt, rt.alloc(), &["replay"], &mut input, &mut out);
        assert_eq!(&rt; status, ends, "with {line}");
        assert!(&rt;
            out.inner().text.as_slice() == answer.as_bytes(),
            "with {line}"
        );
    }
    Ok(())
}

#[test]
fn the_first_line_gives_the_words_a_byte_at_a_time(rt: HostRuntime) -> Result<(), Fail> {
    let text = format!(in rt.alloc(); "check --comp-cost 2\r\n{BUNDLE}")?;
    let mut input = CountedStream::new(GivenReader::new(text.as_bytes(), 1));
    let mut out = CountedStream::new(GivenWriter::new(rt.alloc(), ENDLESS, true));
    assert_eq!(&rt; run(&rt, rt.alloc(), &[], &mut input, &mut out), 0);
    // The Comps read 114 rows, and the Insts write 40.
    assert!(&rt; out.inner().text.as_slice() == b"correct\nwork 268\n".as_slice());
    Ok(())
}

#[test]
fn a_read_that_fails_is_a_fault_whichever_it_is(rt: HostRuntime) {
    let step = BUNDLE.len() / 4 + 1;
    // Four reads give the bytes and the fifth has none; where none fails, that is all.
    for at in 1..=6 {
        let mut input = CountedStream::new(GivenReader::failing(BUNDLE.as_bytes(), step, at));
        let mut out = CountedStream::new(GivenWriter::new(rt.alloc(), ENDLESS, true));
        let status = run(&rt, rt.alloc(), &["check"], &mut input, &mut out);
        let (wanted, text) = if at <= 5 {
            (3, "fault read\n")
        } else {
            (0, ANSWER)
        };
        assert_eq!(&rt; status, wanted, "at {at}");
        assert!(&rt; out.inner().text.as_slice() == text.as_bytes(), "at {at}");
        assert_eq!(&rt; input.inner().reads(), at.min(5), "at {at}");
    }
}

#[test]
fn a_writer_that_fails_ends_with_5_wherever_it_does(rt: HostRuntime) {
    for room in 0..=ANSWER.len() {
        let mut input = CountedStream::new(GivenReader::new(BUNDLE.as_bytes(), 4096));
        let mut out = CountedStream::new(GivenWriter::new(rt.alloc(), room, room < ANSWER.len()));
        let status = run(&rt, rt.alloc(), &["check"], &mut input, &mut out);
        assert_eq!(&rt; status, 5, "with room for {room}");
        assert!(&rt;
            ANSWER.as_bytes().starts_with(&out.inner().text),
            "with room for {room}"
        );
    }
    let mut full = CountedStream::new(GivenWriter::new(rt.alloc(), 0, true));
    assert_eq!(&rt; want_of_memory(&mut full), 5);
    assert_eq!(&rt; words_without_text(&mut full), 5);
}

#[test]
fn a_writer_that_is_interrupted_has_all_bytes(rt: HostRuntime) {
    let mut input = CountedStream::new(GivenReader::new(BUNDLE.as_bytes(), 4096));
    let mut out = CountedStream::new(Halting::new(rt.alloc()));
    let status = run(&rt, rt.alloc(), &["check"], &mut input, &mut out);
    assert_eq!(&rt; status, 0);
    assert!(&rt; out.inner().text.as_slice() == ANSWER.as_bytes());
}

#[test]
fn words_that_are_refused_leave_the_reader_unread(rt: HostRuntime) {
    let mut input = CountedStream::new(GivenReader::new(BUNDLE.as_bytes(), 4096));
    let mut out = CountedStream::new(GivenWriter::new(rt.alloc(), ENDLESS, true));
    assert_eq!(&rt;
        run(&rt, rt.alloc(), &["check", "now"], &mut input, &mut out),
        2
    );
    assert_eq!(&rt; input.inner().reads(), 0);
}

#[test]
fn a_reader_without_an_end_is_stopped_at_the_limit(rt: HostRuntime) {
    let mut out = CountedStream::new(GivenWriter::new(rt.alloc(), ENDLESS, true));
    let status = run(
        &rt,
        rt.alloc(),
        &["check"],
        &mut CountedStream::new(Endless),
        &mut out,
    );
    assert_eq!(&rt; status, 3);
    assert!(&rt; out.inner().text.as_slice() == b"fault toolong\n".as_slice());
}

#[test]
fn what_has_no_words_or_no_memory_is_told(rt: HostRuntime) {
    let mut out = CountedStream::new(GivenWriter::new(rt.alloc(), ENDLESS, true));
    assert_eq!(&rt; words_without_text(&mut out), 2);
    assert_eq!(&rt; want_of_memory(&mut out), 4);
    assert!(&rt; out.inner().text.as_slice() == b"fault words\nmemory\n".as_slice());
}

/// Asserts what these words answer to a bundle that comes a byte at a time, where each write of a byte is interrupted first; that each
/// read that fails is told; and that each byte that cannot be written ends with 5, behind a beginning of the answer.
fn assert_run<'a, R: Abort + Files + Threads + Wait + Sync>(
    rt: &R,
    alloc: Global,
    words: &'a [&'a str],
    bundle: &str,
    answer: &str,
) {
    let mut input = CountedStream::new(GivenReader::new(bundle.as_bytes(), 1));
    let mut out = CountedStream::new(Halting::new(alloc));
    assert_eq!(rt; run(rt, alloc, words, &mut input, &mut out), 0);
    assert!(rt; out.inner().text.as_slice() == answer.as_bytes());
    let step = (bundle.len() / 4).saturating_add(1);
    for at in 1..=5 {
        let mut input = CountedStream::new(GivenReader::failing(bundle.as_bytes(), step, at));
        let mut out = CountedStream::new(GivenWriter::new(alloc, ENDLESS, true));
        assert_eq!(rt; run(rt, alloc, words, &mut input, &mut out), 3, "at {at}");
        assert!(rt;
            out.inner().text.as_slice() == b"fault read\n".as_slice(),
            "at {at}"
        );
    }
    for room in 0..answer.len() {
        let mut input = CountedStream::new(GivenReader::new(bundle.as_bytes(), 4096));
        let mut out = CountedStream::new(GivenWriter::new(alloc, room, true));
        assert_eq!(rt;
            run(rt, alloc, words, &mut input, &mut out),
            5,
            "with room for {room}"
        );
        assert!(rt;
            answer.as_bytes().starts_with(&out.inner().text),
            "with room for {room}"
        );
    }
}

#[test]
fn reads_and_writes_of_each_command_fail_and_are_made_short(rt: HostRuntime) -> Result<(), Fail> {
    let alloc = rt.alloc();
    let certified = format!(in alloc; "{MEASURED}@plan\n{PLANNED}")?;
    let replayed = format!(in alloc; "{NIGHT}{SCHEDULE}")?;
    let beside = format!(in alloc;
        "{CARRIED}reader 0 version 0 rows 2\nreader 1 version 0 rows 2\n"
    )?;
    let seats = ["night", "--workers", "2", "--readers", "2"];
    assert_run(&rt, alloc, &["check"], BUNDLE, ANSWER);
    assert_run(&rt, alloc, &["plan"], MEASURED, PLANNED);
    assert_run(
        &rt,
        alloc,
        &["certify"],
        certified.as_str(),
        "certified all work 154\n",
    );
    assert_run(&rt, alloc, &["night"], NIGHT, CARRIED);
    assert_run(&rt, alloc, &seats, NIGHT, beside.as_str());
    assert_run(&rt, alloc, &["replay"], replayed.as_str(), REPLIES);
    Ok(())
}

/// Asserts that these words are answered so, or by want of memory; the output itself has the room that it needs.
fn assert_run_or_memory<'a, R: Abort + Files + Threads + Wait + Sync>(
    rt: &R,
    alloc: Global,
    words: &'a [&'a str],
    bundle: &str,
    answer: &str,
) -> Result<(), Fail> {
    let mut writer = GivenWriter::new(alloc, ENDLESS, true);
    writer.text.try_reserve(answer.len().saturating_add(16))?;
    let mut input = CountedStream::new(GivenReader::new(bundle.as_bytes(), 64));
    let mut out = CountedStream::new(writer);
    let status = run(rt, alloc, words, &mut input, &mut out);
    let (ended, text) = if status == 0 {
        (0, answer)
    } else {
        (4, "memory\n")
    };
    assert_eq!(rt; status, ended);
    assert!(rt; out.inner().text.as_slice() == text.as_bytes());
    Ok(())
}

// `trials/run program/refusals` refuses each call for memory in turn, and each start of a thread.
#[test]
fn each_command_where_memory_may_be_refused(rt: HostRuntime) -> Result<(), Fail> {
    let alloc = rt.alloc();
    let certified = format!(in alloc; "{MEASURED}@plan\n{PLANNED}")?;
    let replayed = format!(in alloc; "{NIGHT}{SCHEDULE}")?;
    let beside = format!(in alloc;
        "{CARRIED}reader 0 version 0 rows 2\nreader 1 version 0 rows 2\n"
    )?;
    let seats = ["night", "--workers", "2", "--readers", "2"];
    assert_run_or_memory(&rt, alloc, &["check"], BUNDLE, ANSWER)?;
    assert_run_or_memory(&rt, alloc, &["plan"], MEASURED, PLANNED)?;
    assert_run_or_memory(
        &rt,
        alloc,
        &["certify"],
        certified.as_str(),
        "certified all work 154\n",
    )?;
    assert_run_or_memory(&rt, alloc, &["night"], NIGHT, CARRIED)?;
    assert_run_or_memory(&rt, alloc, &seats, NIGHT, beside.as_str())?;
    assert_run_or_memory(&rt, alloc, &["replay"], replayed.as_str(), REPLIES)
}
