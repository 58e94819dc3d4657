// Reading all bytes of a reader, up to a limit.

use std::io;
use std::io::{ErrorKind, Read};
use wh_load::{ReadFault, read_all};
use wh_stream::CountedStream;

// Gives `left` bytes one by one, and then an error, or the end.
#[derive(Drop)]
struct Dripping {
    left: usize,
    fails: bool,
}

impl Read for Dripping {
    fn read(&mut self, buf: &mut [u8]) -> io::Result<usize> {
        if self.left == 0 && self.fails {
            return Err(io::Error::from(ErrorKind::Interrupted));
        }
        if self.left == 0 || buf.is_empty() {
            return Ok(0);
        }
        self.left -= 1;
        buf[0] = b'x';
        Ok(1)
    }
}

#[test]
fn all_bytes_up_to_the_limit_are_read(rt: HostRuntime) {
    let text: &[u8] = b"abc";
    let all = read_all(&mut CountedStream::new(text), rt.alloc(), 3);
    assert!(&rt; all.is_ok_and(|v| v.as_slice() == b"abc".as_slice()));
    let longer: &[u8] = b"abcd";
    let refused = read_all(&mut CountedStream::new(longer), rt.alloc(), 3);
    assert!(&rt; refused.is_err_and(|e| e == ReadFault::TooLong));
}

#[test]
fn a_reader_that_drips_is_read_to_its_end(rt: HostRuntime) {
    let reader = Dripping {
        left: 3_000_000,
        fails: false,
    };
    let all = read_all(&mut CountedStream::new(reader), rt.alloc(), 3_000_000);
    assert!(&rt; all.is_ok_and(|v| v.len() == 3_000_000 && v.capacity() < 3_600_000));
}

#[test]
fn any_error_of_the_reader_is_a_read_fault(rt: HostRuntime) {
    let reader = Dripping {
        left: 2,
        fails: true,
    };
    let all = read_all(&mut CountedStream::new(reader), rt.alloc(), 3);
    assert!(&rt; all.is_err_and(|e| e == ReadFault::Read));
    assert!(&rt; ReadFault::Read.number() == 10 && ReadFault::Memory.number() == 11);
    assert!(&rt; ReadFault::TooLong.number() == 13);
}
