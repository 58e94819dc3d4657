// The command that keeps a warehouse, as far as words alone decide: what it answers over files is for runs of the built program.

use crate::given::{ENDLESS, GivenReader, GivenWriter};
use whview::{CountedStream, run};

/// What `live` says where it names no file.
const WANTED: &str = "error: `live` needs `--input`\n";

#[test]
fn live_needs_a_file_and_reads_nothing_without_one(rt: HostRuntime) {
    for number in ["2", "3", "4"] {
        let mut input = CountedStream::new(GivenReader::new(b"quit\n", 4096));
        let mut out = CountedStream::new(GivenWriter::new(rt.alloc(), ENDLESS, true));
        let words = ["live", "--versions", number, "--desks", number];
        assert_eq!(&rt;
            run(&rt, rt.alloc(), &words, &mut input, &mut out),
            2,
            "of {number}"
        );
        assert!(&rt;
            out.inner().text.as_slice() == WANTED.as_bytes(),
            "of {number}"
        );
        assert_eq!(&rt; input.inner().reads(), 0, "of {number}");
    }
}

#[test]
fn live_on_a_first_line_needs_a_file_too(rt: HostRuntime) {
    let text = b"live --page-keys 7\nquit\n";
    let mut input = CountedStream::new(GivenReader::new(text, 1));
    let mut out = CountedStream::new(GivenWriter::new(rt.alloc(), ENDLESS, true));
    assert_eq!(&rt; run(&rt, rt.alloc(), &[], &mut input, &mut out), 2);
    assert!(&rt; out.inner().text.as_slice() == WANTED.as_bytes());
}

#[test]
fn numbers_out_of_bounds_are_refused_for_live(rt: HostRuntime) {
    for (option, number) in [
        ("--workers", "0"),
        ("--desks", "17"),
        ("--versions", "1"),
        ("--versions", "5"),
        ("--page-keys", "257"),
    ] {
        let mut input = CountedStream::new(GivenReader::new(b"quit\n", 4096));
        let mut out = CountedStream::new(GivenWriter::new(rt.alloc(), ENDLESS, true));
        let words = ["live", option, number, "--input", "nowhere/opening"];
        let status = run(&rt, rt.alloc(), &words, &mut input, &mut out);
        assert_eq!(&rt; status, 2, "of {option} {number}");
        assert_eq!(&rt; input.inner().reads(), 0, "of {option} {number}");
    }
}

#[test]
fn a_file_that_is_not_there_is_a_fault_before_any_command_is_read(rt: HostRuntime) {
    let mut input = CountedStream::new(GivenReader::new(b"quit\n", 4096));
    let mut out = CountedStream::new(GivenWriter::new(rt.alloc(), ENDLESS, true));
    let words = ["live", "--input", "nowhere/opening"];
    assert_eq!(&rt; run(&rt, rt.alloc(), &words, &mut input, &mut out), 3);
    assert!(&rt; out.inner().text.as_slice() == b"fault read\n".as_slice());
    assert_eq!(&rt; input.inner().reads(), 0);
}
