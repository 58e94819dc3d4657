// Nights that are watched: as many workers and readers go to work as the words ask for.

use crate::given::{ENDLESS, GivenReader, GivenWriter};
use std::alloc::Global;
use std::fs::Files;
use std::hint::spin_loop;
use std::process::Abort;
use std::sync::Wait;
use std::sync::atomic::{AtomicBool, AtomicU64, Ordering};
use std::test::Fail;
use std::thread::Threads;
use whview::{CountedStream, Gate, Watch, run_watched};

/// A bundle for `night` whose first wave has four jobs.
const FOUR_JOBS: &str = "@catalogue
[[view]]
name = \"a\"
columns = [\"x\"]
[[view]]
name = \"s\"
over = [\"a\"]
keep = [[\"x\", \"a.x\"]]
[[view]]
name = \"t\"
over = [\"a\"]
keep = [[\"x\", \"a.x\"]]
[[view]]
name = \"u\"
over = [\"a\"]
keep = [[\"x\", \"a.x\"]]
[[view]]
name = \"v\"
over = [\"a\"]
keep = [[\"x\", \"a.x\"]]
@data a
x
1
@changes a
#,x
-1,1
1,2
@strategy
comp s from a
comp t from a
comp u from a
comp v from a
inst a
inst s
inst t
inst u
inst v
";

/// How `night` begins what it says of it.
const FOUR_DONE: &str = "comp s from a: 2
comp t from a: 2
comp u from a: 2
comp v from a: 2
inst a: 2
";

/// The most readers that a night has here.
const MOST_READERS: usize = 3;

/// How often a job looks whether as many are under way as are wanted, before that is given up: long enough for a thread that has to wait
/// for a processor.
const TURNS: u32 = 500_000_000;

/// How often it then looks whether there is one more.
const MORE_TURNS: u32 = 200_000;

/// Counts the readers, and keeps each job until as many jobs are under way as are wanted.
#[derive(Drop)]
struct Seats {
    /// How many jobs are to be under way at once.
    wanted: u64,
    under_way: AtomicU64,
    /// Whether so many were under way at once, or are waited for no longer.
    have_met: AtomicBool,
    /// How often each reader entered at version 0.
    entered: [AtomicU64; MOST_READERS],
    /// How often each reader left.
    left: [AtomicU64; MOST_READERS],
    /// Whether a job waited in vain, more were under way than are wanted, or one was told of what must not be.
    is_amiss: AtomicBool,
}

/// Whether this is so, which is looked at so often.
fn comes_true(fact: &AtomicBool, turns: u32) -> bool {
    for _turn in 0..turns {
        if fact.load(Ordering::SeqCst) {
            return true;
        }
        spin_loop();
    }
    false
}

impl Seats {
    fn new(wanted: u64) -> Seats {
        Seats {
            wanted,
            under_way: AtomicU64::new(0),
            have_met: AtomicBool::new(false),
            entered: [AtomicU64::new(0), AtomicU64::new(0), AtomicU64::new(0)],
            left: [AtomicU64::new(0), AtomicU64::new(0), AtomicU64::new(0)],
            is_amiss: AtomicBool::new(false),
        }
    }

    fn note_amiss(&self) {
        self.is_amiss.store(true, Ordering::SeqCst);
        self.have_met.store(true, Ordering::SeqCst);
    }

    /// Whether as many jobs were under way at once as are wanted, and no more, and each of so many readers entered once at version 0 and
    /// left once, and no other reader did.
    fn were_taken_by(&self, readers: usize) -> bool {
        for reader in 0..MOST_READERS {
            let times = if reader < readers { 1 } else { 0 };
            if self.entered[reader].load(Ordering::SeqCst) != times
                || self.left[reader].load(Ordering::SeqCst) != times
            {
                return false;
            }
        }
        self.have_met.load(Ordering::SeqCst) && !self.is_amiss.load(Ordering::SeqCst)
    }
}

impl Gate for Seats {
    fn taken(&self, _job: usize) {
        let before = self.under_way.fetch_add(1, Ordering::SeqCst);
        if before >= self.wanted {
            self.note_amiss();
        } else if before.saturating_add(1) == self.wanted {
            self.have_met.store(true, Ordering::SeqCst);
        }
        if !comes_true(&self.have_met, TURNS) || comes_true(&self.is_amiss, MORE_TURNS) {
            self.note_amiss();
        }
    }

    fn finished(&self, _job: usize) {
        self.under_way.fetch_sub(1, Ordering::SeqCst);
    }
}

impl Watch for Seats {
    fn entered(&self, reader: usize, version: u64) {
        match self.entered.get(reader) {
            Some(entered) if version == 0 => {
                entered.fetch_add(1, Ordering::SeqCst);
            }
            _ => self.note_amiss(),
        }
    }

    fn left(&self, reader: usize) {
        match self.left.get(reader) {
            Some(left) => {
                left.fetch_add(1, Ordering::SeqCst);
            }
            None => self.note_amiss(),
        }
    }
}

/// Asserts that a night that is given so by words and an input is done by so many workers at once and beside so many readers.
fn assert_taken<'a, R: Abort + Files + Threads + Wait + Sync>(
    rt: &R,
    alloc: Global,
    words: &'a [&'a str],
    input: &str,
    workers: u64,
    readers: usize,
) {
    let seats = Seats::new(workers);
    let mut input = CountedStream::new(GivenReader::new(input.as_bytes(), 4096));
    let mut out = CountedStream::new(GivenWriter::new(alloc, ENDLESS, true));
    let status = run_watched(rt, alloc, words, &mut input, &mut out, &seats);
    assert_eq!(rt; status, 0, "by {workers} beside {readers}");
    assert!(rt;
        out.inner()
            .text
            .as_slice()
            .starts_with(FOUR_DONE.as_bytes()),
        "by {workers} beside {readers}"
    );
    assert!(rt;
        seats.were_taken_by(readers),
        "by {workers} beside {readers}"
    );
}

#[test]
fn as_many_workers_and_readers_go_to_work_as_the_words_ask_for(
    rt: HostRuntime,
) -> Result<(), Fail> {
    let alloc = rt.alloc();
    for (workers, readers) in [(1, 0), (1, 3), (2, 1), (3, 2), (4, 0), (4, 3)] {
        let asked = format!(in alloc; "{workers}")?;
        let beside = format!(in alloc; "{readers}")?;
        let words = [
            "night",
            "--workers",
            asked.as_str(),
            "--readers",
            beside.as_str(),
        ];
        assert_taken(&rt, alloc, &words, FOUR_JOBS, workers, readers);
        let lined = format!(in alloc;
            "night --readers {readers} --workers {workers}\n{FOUR_JOBS}"
        )?;
        assert_taken(&rt, alloc, &[], lined.as_str(), workers, readers);
    }
    Ok(())
}

#[test]
fn one_worker_and_no_reader_go_to_work_where_the_words_ask_for_none(rt: HostRuntime) {
    assert_taken(&rt, rt.alloc(), &["night"], FOUR_JOBS, 1, 0);
}
