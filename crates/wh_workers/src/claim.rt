//! Gives each job's number out once: workers draw the numbers from one word in memory, the claim word.

ghost use Rattle.std.specs.Prelude.{◌≡◌, ℕ, [], ◌∷◌, ◌++◌, ◌+◌, ◌-◌, ◌<◌};
ghost use Rattle.wh_workers.specs.Claims.{hand, Draws, Knows, Whole};
ghost use Rattle.wh_workers.specs.Inner.Claims.{Holds};

use atomic_table::{Join, Play, Seat, Shared, Split, TableRule};
use std::collections::LinkedList;

/// The knowledge of a seat at the claim word. No value of it is made.
pub struct Hand {
    /// The number of jobs.
    pub jobs: u64,
    /// The number of workers that the seat stands for.
    pub parts: u64,
    /// The number of these that have not found yet that no job is left.
    pub left: u64,
    /// The numbers that were drawn with the seat.
    pub drawn: LinkedList<u64>,
}

/// The rule of the claim word: what it holds, and what its first seat knows.
pub struct Fair;

impl TableRule<(), Hand, u64> for Fair {
    ghost holds = { Holds };

    ghost first = { λ n. hand n 16 16 [] };
}

/// The step of a worker that draws a number.
pub struct Claims;

impl Play<(), Hand> for Claims {
    ghost then = { λ st me found after. Draws me.0 found after.0 × (after.1 ≡ me.1) };
}

/// The step of a seat that stands for all workers, which looks at the word.
pub struct Looks;

impl Play<(), Hand> for Looks {
    ghost then = { λ st me found after. (after ≡ me) × Whole me.0 };
}

/// The split of a seat that drew nothing: it keeps one worker, and the others have a seat of their own.
pub struct One;

impl Split<Hand> for One {
    ghost left = { λ v. hand v.jobs 1 1 [] };

    ghost right = { λ v. hand v.jobs (v.parts - 1) (v.parts - 1) [] };
}

/// The join of two seats to one.
pub struct Both;

impl Join<Hand> for Both {
    ghost both = { λ v w. hand v.jobs (v.parts + w.parts) (v.left + w.left) (v.drawn ++ w.drawn) };

    ghost spent = { hand 0 0 0 [] };
}

/// The claim word.
pub type Word = Shared<(), Hand, u64, Fair>;

/// A seat at the claim word.
pub type Claimer = Seat<(), Hand>;

/// Draws the next number. It is at or past the number of jobs where none is left.
pub fn draw(word: &Word, seat: &mut Claimer) -> u64
    requires seat { Knows word.now.table_id word.now.key seat.old }
    requires left { (0 < seat.old.me.0.parts) × (0 < seat.old.me.0.left) }
    ensures seat { Knows word.now.table_id word.now.key seat.new }
    ensures draws { Draws seat.old.me.0 result seat.new.me.0 }
{
    word.fetch_add::<Claims>(seat, 0, 1)
}

/// Splits a seat that drew nothing: it keeps one worker, and the seat that is returned has the others.
pub fn another(word: &Word, seat: &mut Claimer) -> Claimer
    requires seat { Knows word.now.table_id word.now.key seat.old }
    requires fresh { (1 < seat.old.me.0.parts) × (seat.old.me.0 ≡ hand word.now.key seat.old.me.0.parts seat.old.me.0.parts []) }
    ensures seat { Knows word.now.table_id word.now.key seat.new × (seat.new.me.0 ≡ hand word.now.key 1 1 []) }
    ensures other { Knows word.now.table_id word.now.key result × (result.me.0 ≡ hand word.now.key (seat.old.me.0.parts - 1) (seat.old.me.0.parts - 1) []) }
{
    word.split_seat::<One>(seat)
}

/// Hands what another seat drew, and its workers, over to this seat.
pub fn absorb(word: &Word, seat: &mut Claimer, other: Claimer)
    requires seat { Knows word.now.table_id word.now.key seat.old × (0 < seat.old.me.0.parts) }
    requires other { Knows word.now.table_id word.now.key other × (0 < other.me.0.parts) }
    ensures seat { Knows word.now.table_id word.now.key seat.new }
    ensures both { seat.new.me.0 ≡ hand seat.old.me.0.jobs (seat.old.me.0.parts + other.me.0.parts) (seat.old.me.0.left + other.me.0.left) (seat.old.me.0.drawn ++ other.me.0.drawn) }
{
    word.join_seat::<Both>(seat, other);
}

/// Tells a seat that stands for all workers, one of which found that no job is left, that each number was drawn, and once.
pub fn settle(word: &Word, seat: &mut Claimer)
    requires seat { Knows word.now.table_id word.now.key seat.old × (seat.old.me.0.parts ≡ 16) × (seat.old.me.0.left < 16) }
    ensures { Whole seat.old.me.0 }
{
    word.load::<Looks>(seat, 0);
}
