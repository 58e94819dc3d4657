// Lines that come over a pipe, however they are cut, and what is written of them.
use crate::given::opened;
use std::alloc::{AllocError, Global};
use std::io::{self, ErrorKind, Read};
use std::process::Abort;
use std::test::Fail;
use std::thread::Threads;
use wh_dialogue::{TalkEnd, talk};
use wh_stream::CountedStream;
use wh_threads::ThreadBudget;

/// Reads of a text, each of so many bytes at most; the one at this byte fails.
#[derive(Drop)]
struct Cut<'a> {
    text: &'a [u8],
    given: usize,
    most: usize,
    fails_at: Option<usize>,
}

impl<'a> Read for Cut<'a> {
    fn read(&mut self, buf: &mut [u8]) -> io::Result<usize> {
        if self.fails_at == Some(self.given) {
            return Err(io::Error::from(ErrorKind::Interrupted));
        }
        let rest = &self.text[self.given.min(self.text.len())..];
        let count = rest.len().min(self.most).min(buf.len());
        buf[..count].copy_from_slice(&rest[..count]);
        self.given = self.given.saturating_add(count);
        Ok(count)
    }
}

/// What is asked, and below it what is answered.
static TALK_ASKED: &str = "open 0
read 0 v 10
night
@changes a
#,x
-1,one
1,two
@end
read 0 v 10
tables
commit
read 0 v 10
tables
page 0 v 10
close 0
page 0 v 10 after one
open 0
page 1 v 1 after one
page 0 w 1 after one,two
page 0 v 0 after one
page 0 v 1 after one,two
page 0 v 10 after one
page 0 a 10 after two
page 0 a 10 after three
read 0 v 1
who

begin
open 99
night
@changes a
#,x
x,five
@end
night
@changes a
#,x
-1,six
@end
night
@strategy
inst a
@end
commit
quit
open 0
";

static TALK_ANSWERED: &str = "session 0
#,x
1,one
end
begun
job 0
done
paged 2
paged 2
ready
#,x
1,one
end
view,rows
a,1
v,1
versions 0
version 1
#,x
1,one
end
view,rows
a,1
v,1
versions 0 1
#,x
1,one
end
closed
refused NoSession
session 1
refused NoSession
refused NoView
refused Limit
fault csv 2
#,x
1,two
end
#,x
end
#,x
end
#,x
1,two
end
unknown
unknown
refused NoDesk
fault number 2
refused Absent
broken S1 at 2
refused NoNight
";

/// How a talk over these reads ends, and what is written.
fn talked(
    rt: &(impl Abort + Threads + Sync),
    alloc: Global,
    reads: Cut<'_>,
) -> Result<(TalkEnd, Vec<u8>), Fail> {
    let budget = ThreadBudget {
        rt,
        alloc,
        threads: 1,
    };
    let mut input = CountedStream::new(reads);
    let mut out = CountedStream::new(Vec::new(alloc));
    let live = opened(rt, alloc)?;
    let end = talk(&budget, live, &mut input, &mut out);
    Ok((end, out.inner().as_slice().to_vec(alloc)?))
}

#[test]
fn lines_are_answered_however_they_are_cut(rt: HostRuntime) -> Result<(), Fail> {
    for most in [1, 2, 3, 7, 64, 1000] {
        let reads = Cut {
            text: TALK_ASKED.as_bytes(),
            given: 0,
            most,
            fails_at: None,
        };
        let (end, written) = talked(&rt, rt.alloc(), reads)?;
        assert!(&rt; end == TalkEnd::Done);
        assert_eq!(&rt; written.as_slice(), TALK_ANSWERED.as_bytes());
    }
    Ok(())
}

/// What is asked of three rows, and below it what is answered.
static PAGES_ASKED: &str = "night
@changes a
#,x
2,\"two, and\"
1,three
@end
commit
open 0
tables
read 0 a 1
page 0 a 1
page 0 a 1 after one
page 0 a 2 after one
page 0 a 2 after \"two, and\"
page 0 a 2 after four
read 0 a 1
read 0 a 1
";

static PAGES_ANSWERED: &str = "begun
job 0
done
paged 2
paged 2
ready
version 1
session 1
view,rows
a,4
v,4
versions 0 1
#,x
1,one
more
#,x
1,one
more
#,x
2,\"two, and\"
more
#,x
2,\"two, and\"
1,three
end
#,x
1,three
end
#,x
end
#,x
2,\"two, and\"
more
#,x
1,three
end
";

/// A page behind a row begins with the next one, and moves no bookmark.
#[test]
fn a_page_behind_a_row_leaves_the_bookmark(rt: HostRuntime) -> Result<(), Fail> {
    let reads = Cut {
        text: PAGES_ASKED.as_bytes(),
        given: 0,
        most: 1000,
        fails_at: None,
    };
    let (end, written) = talked(&rt, rt.alloc(), reads)?;
    assert!(&rt; end == TalkEnd::Done);
    assert_eq!(&rt; written.as_slice(), PAGES_ANSWERED.as_bytes());
    Ok(())
}

/// What is asked about what a night changes, and below it what is answered.
static CHANGES_ASKED: &str = "changes
night
@changes a
#,x
-1,one
2,\"two, and\"
@end
changes
commit
changes
night
@end
changes
";

static CHANGES_ANSWERED: &str = "changes v
#,x
end
begun
job 0
done
paged 2
paged 2
ready
changes v
#,x
-1,one
2,\"two, and\"
end
version 1
changes v
#,x
end
begun
job 0
done
ready
changes v
#,x
end
";

/// What the open night changes is told from its last page on until it ends.
#[test]
fn what_a_night_changes_is_told_before_its_commit(rt: HostRuntime) -> Result<(), Fail> {
    let reads = Cut {
        text: CHANGES_ASKED.as_bytes(),
        given: 0,
        most: 1000,
        fails_at: None,
    };
    let (end, written) = talked(&rt, rt.alloc(), reads)?;
    assert!(&rt; end == TalkEnd::Done);
    assert_eq!(&rt; written.as_slice(), CHANGES_ANSWERED.as_bytes());
    Ok(())
}

/// The end of the lines ends the talk too, and a night whose end has not come says nothing.
#[test]
fn an_input_that_ends_amid_a_night_says_nothing_of_it(rt: HostRuntime) -> Result<(), Fail> {
    let reads = Cut {
        text: b"open 1\nnight\n@changes a\n#,x\n1,two\n",
        given: 0,
        most: 5,
        fails_at: None,
    };
    let (end, written) = talked(&rt, rt.alloc(), reads)?;
    assert!(&rt; end == TalkEnd::Done);
    assert_eq!(&rt; written.as_slice(), b"session 0\n".as_slice());
    Ok(())
}

#[test]
fn a_read_that_fails_ends_the_talk(rt: HostRuntime) -> Result<(), Fail> {
    let reads = Cut {
        text: TALK_ASKED.as_bytes(),
        given: 0,
        most: 7,
        fails_at: Some(14),
    };
    let (end, written) = talked(&rt, rt.alloc(), reads)?;
    assert!(&rt; end == TalkEnd::Read);
    assert_eq!(&rt; written.as_slice(), b"session 0\n".as_slice());
    Ok(())
}
