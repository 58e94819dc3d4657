// Lines that are handed out, however their bytes are cut into reads.

use std::alloc::{AllocError, Global};
use std::io;
use std::io::{ErrorKind, Read};
use std::test::Fail;
use wh_live::{LineFault, LineReader};
use wh_stream::CountedStream;

/// Texts, and their lines, each in brackets.
static TEXTS: [(&str, &str); 6] = [
    ("", ""),
    ("\n", "[]"),
    ("quit", "[quit]"),
    ("open 0\nread 0 v 10\n", "[open 0][read 0 v 10]"),
    ("\n\na\r\n\n@end\nb", "[][][a\r][][@end][b]"),
    ("a\nb\nc\n\n", "[a][b][c][]"),
];

/// Gives at most so many bytes at a read, and fails once at a read that begins at this place.
#[derive(Drop)]
struct Cut<'a> {
    text: &'a [u8],
    given: usize,
    most: usize,
    fails_at: Option<usize>,
}

impl<'a> Read for Cut<'a> {
    fn read(&mut self, buf: &mut [u8]) -> io::Result<usize> {
        if self.fails_at == Some(self.given) {
            self.fails_at = None;
            return Err(io::Error::from(ErrorKind::Interrupted));
        }
        let rest = &self.text[self.given.min(self.text.len())..];
        let count = rest.len().min(self.most).min(buf.len());
        buf[..count].copy_from_slice(&rest[..count]);
        self.given = self.given.saturating_add(count);
        Ok(count)
    }
}

/// Appends a line in brackets.
fn push_line(all: &mut String, line: &[u8]) -> Result<(), AllocError> {
    all.push('[')?;
    for byte in line {
        all.push(char::from(*byte))?;
    }
    all.push(']')
}

/// The lines of what these reads give, in brackets, with `!` for a read that failed.
fn lines_text(alloc: Global, reads: Cut<'_>) -> Result<String, AllocError> {
    let mut source = CountedStream::new(reads);
    let mut reader = LineReader::new(alloc)?;
    let mut all = String::new(alloc);
    for _ in 0..100 {
        match reader.next_line(&mut source) {
            Ok(Some(line)) => push_line(&mut all, &line)?,
            Ok(None) => break,
            Err(LineFault::Read) => all.push('!')?,
            Err(LineFault::Memory) => return Err(AllocError),
        }
    }
    Ok(all)
}

#[test]
fn lines_are_handed_out_however_they_are_cut(rt: HostRuntime) -> Result<(), Fail> {
    for (text, lines) in &TEXTS {
        for most in 1..=text.len() + 1 {
            let reads = Cut {
                text: text.as_bytes(),
                given: 0,
                most,
                fails_at: None,
            };
            let told = lines_text(rt.alloc(), reads)?;
            assert_eq!(&rt; told.as_str(), *lines);
        }
    }
    Ok(())
}

#[test]
fn a_read_that_failed_loses_no_byte(rt: HostRuntime) -> Result<(), Fail> {
    let reads = Cut {
        text: b"open 0\nclose 0\n",
        given: 0,
        most: 4,
        fails_at: Some(8),
    };
    let told = lines_text(rt.alloc(), reads)?;
    assert_eq!(&rt; told.as_str(), "[open 0]![close 0]");
    Ok(())
}
