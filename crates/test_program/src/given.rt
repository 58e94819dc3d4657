//! Readers and writers that fail, and bundles.

ghost use Rattle.std.specs.Prelude.{◌≡◌, []};

use std::alloc::Global;
use std::io;
use std::io::{ErrorKind, Read, Write};

/// Room that no text fills.
pub const ENDLESS: usize = usize::MAX;

/// A bundle for `check`: a Comp reads 30 + 10 and 4 + 70 rows and the Insts write 30 + 4 + 6.
pub const BUNDLE: &str = "@catalogue
[[view]]
name = \"A\"
[[view]]
name = \"B\"
[[view]]
name = \"V\"
over = [\"A\", \"B\"]
@strategy
comp V from B
inst B
comp V from A
inst A
inst V
@sizes
view,pre,post,change
A,10,12,4
B,100,70,30
V,50,44,6
";

/// What `check` says of it.
pub const ANSWER: &str = "correct\nwork 154\n";

/// A bundle for `night`: one row of a goes and one comes.
pub const NIGHT: &str = "@catalogue
[[view]]
name = \"a\"
columns = [\"x\"]
[[view]]
name = \"v\"
over = [\"a\"]
keep = [[\"x\", \"a.x\"]]
@data a
x
1
@changes a
#,x
-1,1
1,2
@strategy
comp v from a
inst a
inst v
";

/// What `night` says of it.
pub const CARRIED: &str = "comp v from a: 2
inst a: 2
inst v: 2
work 6
version 1
view v
#,x
1,2
";

/// What it says where the changes are to be printed: before the night v has 1, after it 2.
pub const CHANGED: &str = "comp v from a: 2
inst a: 2
inst v: 2
work 6
version 1
changes v
#,x
-1,1
1,2
";

/// A bundle for `night` over two tables: before it v has the rows 1,5 and 2,5, after it 1,6 and 3,6.
pub const TWO: &str = "@catalogue
[[view]]
name = \"a\"
columns = [\"x\", \"y\"]
[[view]]
name = \"b\"
columns = [\"y\", \"z\"]
[[view]]
name = \"v\"
over = [\"a\", \"b\"]
join = [[\"a.y\", \"b.y\"]]
keep = [[\"x\", \"a.x\"], [\"z\", \"b.z\"]]
@data a
x,y
1,10
2,10
@data b
y,z
10,5
@changes a
#,x,y
-1,2,10
1,3,10
@changes b
#,y,z
-1,10,5
1,10,6
@strategy
comp v from a
inst a
comp v from b
inst b
inst v
";

/// What it says where the changes are to be printed.
pub const TWO_CHANGED: &str = "comp v from a: 3
inst a: 2
comp v from b: 4
inst b: 2
inst v: 4
work 15
version 1
changes v
#,x,z
-1,1,5
1,1,6
-1,2,5
1,3,6
";

/// Events for the machine that goes through the night of [`NIGHT`].
pub const SCHEDULE: &str = "@schedule
desks 1
workers 1
keys 2
begin
take 0
done 0
page
page
commit
open 0
read 0 v 2
close 0
";

/// What `replay` says to them: one row of each view goes and one comes, a page each.
pub const REPLIES: &str = "begun
job 0
done
paged 2
paged 2
version 1
session 1
page [1 2] end
closed
";

/// A bundle of three nights for `replay`, each of which replaces the one row of a by the next number, up to its schedule's keys.
pub const NIGHTS: &str = "@catalogue
[[view]]
name = \"a\"
columns = [\"x\"]
@data a
x
1
@changes a
#,x
-1,1
1,2
@strategy
inst a
@night
@changes a
#,x
-1,2
1,3
@strategy
inst a
@night
@changes a
#,x
-1,3
1,4
@strategy
inst a
@schedule
desks 3
workers 1
keys 256
";

/// Events for those nights: sessions of their versions read while others are made.
pub const EVENTS: &str = "open 0
begin
page
commit
open 1
begin
read 0 a 10
page
commit
read 0 a 10
begin
read 0 a 10
read 1 a 10
page
giveup
read 1 a 10
open 2
read 2 a 10
";

/// What `replay` says to them where two versions are kept: only the current one is read in a night.
pub const OF_TWO: &str = "session 0
begun
paged 2
version 1
session 1
begun
expired 0 current 1 active
paged 2
version 2
expired 0 current 2 idle
begun
expired 0 current 2 active
expired 1 current 2 active
paged 2
version 3
expired 1 current 3 idle
session 3
page [1 3] end
";

/// Where three are kept: in a night the one before the current one is read too, and between nights the one before that.
pub const OF_THREE: &str = "session 0
begun
paged 2
version 1
session 1
begun
page [1 1] end
paged 2
version 2
page [1 1] end
begun
expired 0 current 2 active
page [1 2] end
paged 2
version 3
page [1 2] end
session 3
page [1 3] end
";

/// A bundle for `plan`: the views and the sizes of [`BUNDLE`].
pub const MEASURED: &str = "@catalogue
[[view]]
name = \"A\"
[[view]]
name = \"B\"
[[view]]
name = \"V\"
over = [\"A\", \"B\"]
@sizes
view,pre,post,change
A,10,12,4
B,100,70,30
V,50,44,6
";

/// What `plan` says of it: with B first the Comps read 10 and 70 rows beside the changes, with A first 100 and 12.
pub const PLANNED: &str = "scope all
work 154
comp V from B
inst B
comp V from A
inst A
inst V
pair V B A 80
";

/// A reader that gives these bytes, so many at a read, and an error at one of the reads, counted from 1; at 0 none fails.
#[derive(Drop)]
pub struct GivenReader<'a> {
    left: &'a [u8],
    step: usize,
    fails_at: usize,
    reads: usize,
}

impl<'a> GivenReader<'a> {
    /// One that does not fail.
    pub fn new(bytes: &'a [u8], step: usize) -> Self
        ensures left { result.left.now ≡ bytes.now }
        ensures step { result.step ≡ step }
        ensures fails_at { result.fails_at ≡ 0 }
        ensures reads { result.reads ≡ 0 }
    {
        GivenReader::failing(bytes, step, 0)
    }

    /// One that fails at this read.
    pub fn failing(bytes: &'a [u8], step: usize, fails_at: usize) -> Self
        ensures left { result.left.now ≡ bytes.now }
        ensures step { result.step ≡ step }
        ensures fails_at { result.fails_at ≡ fails_at }
        ensures reads { result.reads ≡ 0 }
    {
        GivenReader {
            left: bytes,
            step,
            fails_at,
            reads: 0,
        }
    }

    /// How often it was read.
    pub fn reads(&self) -> usize
        ensures { result ≡ self.now.reads }
    {
        self.reads
    }
}

impl Read for GivenReader<'_> {
    fn read(&mut self, buf: &mut [u8]) -> io::Result<usize> {
        self.reads = self.reads.saturating_add(1);
        if self.reads == self.fails_at {
            return Err(io::Error::from(ErrorKind::Interrupted));
        }
        let count = self.left.len().min(self.step).min(buf.len());
        buf[..count].copy_from_slice(&self.left[..count]);
        self.left = &self.left[count..];
        Ok(count)
    }
}

/// A reader that never ends.
#[derive(Drop)]
pub struct Endless;

impl Read for Endless {
    fn read(&mut self, buf: &mut [u8]) -> io::Result<usize> {
        buf.fill(b'x');
        Ok(buf.len())
    }
}

/// A writer that takes so many bytes and then fails; where it has them all, a flush may fail.
#[derive(Drop)]
pub struct GivenWriter {
    /// What was written.
    pub text: Vec<u8>,
    /// How many bytes it takes.
    pub room: usize,
    /// Whether a flush is done.
    pub flushes: bool,
}

impl GivenWriter {
    /// One that nothing was written to.
    pub fn new(alloc: Global, room: usize, flushes: bool) -> Self
        ensures text { result.text.items ≡ [] }
        ensures room { result.room ≡ room }
        ensures flushes { result.flushes ≡ flushes }
    {
        GivenWriter {
            text: Vec::new(alloc),
            room,
            flushes,
        }
    }
}

impl Write for GivenWriter {
    fn write(&mut self, buf: &[u8]) -> io::Result<usize> {
        let count = buf.len().min(self.room.saturating_sub(self.text.len()));
        if count == 0 && !buf.is_empty() {
            return Err(io::Error::from(ErrorKind::BrokenPipe));
        }
        self.text.extend_from_slice(&buf[..count])?;
        Ok(count)
    }

    fn flush(&mut self) -> io::Result<()> {
        if self.flushes {
            Ok(())
        } else {
            Err(io::Error::from(ErrorKind::BrokenPipe))
        }
    }
}

/// A writer that takes a byte at a write, and is interrupted before each.
#[derive(Drop)]
pub struct Halting {
    /// What was written.
    pub text: Vec<u8>,
    interrupted: bool,
}

impl Halting {
    /// One that nothing was written to.
    pub fn new(alloc: Global) -> Self
        ensures { result.text.items ≡ [] }
    {
        Halting {
            text: Vec::new(alloc),
            interrupted: false,
        }
    }
}

impl Write for Halting {
    fn write(&mut self, buf: &[u8]) -> io::Result<usize> {
        self.interrupted = !self.interrupted;
        if self.interrupted {
            return Err(io::Error::from(ErrorKind::Interrupted));
        }
        let count = buf.len().min(1);
        self.text.extend_from_slice(&buf[..count])?;
        Ok(count)
    }

    fn flush(&mut self) -> io::Result<()> {
        Ok(())
    }
}
