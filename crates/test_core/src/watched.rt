//! Three readers that meet a night: each reads all views while the night is open.

use crate::served::{is_served, served};
use std::hint::spin_loop;
use std::sync::atomic::{AtomicBool, AtomicU64, Ordering};
use std::test::Fail;
use wh_night::{Gate, Watch};

/// How many readers there are.
const READERS: usize = 3;

/// How often one waits for another before that is given up.
const TURNS: u32 = 50_000_000;

/// Keeps each reader, once it has entered, until the night's first job is drawn, and that job until all readers have left: what they
/// read, they read in the night.
#[derive(Drop)]
struct Meeting {
    is_drawn: AtomicBool,
    /// How often each reader entered at version 0.
    entered: [AtomicU64; READERS],
    left: AtomicU64,
    /// Whether one waited in vain, or was told of what must not be: another reader, another version.
    is_amiss: AtomicBool,
}

impl Meeting {
    fn new() -> Meeting {
        Meeting {
            is_drawn: AtomicBool::new(false),
            entered: [AtomicU64::new(0), AtomicU64::new(0), AtomicU64::new(0)],
            left: AtomicU64::new(0),
            is_amiss: AtomicBool::new(false),
        }
    }

    fn has_drawn(&self) -> bool {
        self.is_drawn.load(Ordering::SeqCst)
    }

    fn have_left(&self) -> bool {
        self.left.load(Ordering::SeqCst) == READERS as u64
    }

    fn note_amiss(&self) {
        self.is_amiss.store(true, Ordering::SeqCst);
    }

    /// Whether each reader entered once, at version 0, and read all views while the night was open.
    fn has_met(&self) -> bool {
        for entered in &self.entered {
            if entered.load(Ordering::SeqCst) != 1 {
                return false;
            }
        }
        self.have_left() && !self.is_amiss.load(Ordering::SeqCst)
    }
}

impl Gate for Meeting {
    fn taken(&self, _job: usize) {
        self.is_drawn.store(true, Ordering::SeqCst);
        for _turn in 0..TURNS {
            if self.have_left() {
                return;
            }
            spin_loop();
        }
        self.note_amiss();
    }

    fn finished(&self, _job: usize) {}
}

impl Watch for Meeting {
    fn entered(&self, reader: usize, version: u64) {
        match self.entered.get(reader) {
            Some(entered) if version == 0 => {
                entered.fetch_add(1, Ordering::SeqCst);
            }
            _ => self.note_amiss(),
        }
        for _turn in 0..TURNS {
            if self.has_drawn() {
                return;
            }
            spin_loop();
        }
        self.note_amiss();
    }

    fn left(&self, _reader: usize) {
        self.left.fetch_add(1, Ordering::SeqCst);
    }
}

#[test]
fn readers_read_while_the_night_is_open(rt: HostRuntime) -> Result<(), Fail> {
    let meeting = Meeting::new();
    let change: [(&[i64], i64); 2] = [(&[2, 10], -1), (&[3, 10], 1)];
    let answer = served(&rt, rt.alloc(), &change, READERS, &meeting)?;
    assert!(rt; is_served(&answer, READERS));
    assert!(rt; meeting.has_met());
    Ok(())
}
