//! Keeps the history of a warehouse: what it began with, and the operations that were published. It exists in the proofs alone; what lies
//! in memory is the number of operations.

ghost use Rattle.std.specs.Prelude.{◌≡◌, ◌≤◌, ◌++◌, ◌∷◌, [], IsTrue, IfSome, MatchBool, length, nat_le};
ghost use Rattle.wh_store.specs.Operations.{operation};
ghost use Rattle.wh_store.specs.Versions.{is_well_formed};
ghost use Rattle.wh_store.specs.Windows.{current};
ghost use Rattle.wh_desk.specs.Known.{Begins, IsStory, Known, known};
ghost use Rattle.wh_desk.specs.Inner.Histories.{word_of};

use logbook::{Gain, Offer, Opening, Plain, Play, Rule, Seen, Start, Word};
use std::marker::Model;
use wh_store::{Op, Store};

/// An entry of the history. No value of it is made.
pub enum Chapter {
    /// The warehouse began, with what this store shows.
    Opened(Store),
    /// An operation was published.
    Done(Op),
}

/// The rule of the history: which entry may come where.
pub struct Law;

impl Rule<Chapter, u64> for Law {
    ghost use Rattle.std.specs.Prelude.{[]};
    ghost use base.Fml.{ftrue};
    ghost use Rattle.wh_desk.specs.Inner.Histories.{IsKept};

    ghost holds = { λ cells log. IsKept cells log };

    ghost first = { [] };

    ghost hinted = { λ n log. Unit {0} };

    ghost shows = { λ log. [] };

    ghost keeps = { λ names log. ftrue };

    ghost moves = { λ ask before after answer. Unit {0} };
}

/// The opening of the history, with what a store shows.
pub struct Opens;

impl Opening<Store, Chapter> for Opens {
    ghost use Rattle.std.specs.Prelude.{◌∷◌, []};
    ghost use Rattle.wh_desk.specs.declared.history.Chapter.TheVariants.{Opened};

    ghost log = { λ words store. Opened store ∷ [] };
}

/// The trade in which nothing is given.
pub struct Nothing;

impl Gain<Chapter, u64> for Nothing {
    ghost use base.Fml.{ftrue};

    ghost after = { λ names about answer. ftrue };
}

/// The step that adds an operation.
pub struct Add;

impl Play<Chapter, u64> for Add {
    ghost use Rattle.wh_desk.specs.Inner.Histories.{Adds};

    ghost then = { Adds };
}

impl Plain<Op, Chapter, u64> for Add {
    ghost use Rattle.std.specs.Prelude.{None};
    ghost use Rattle.wh_desk.specs.declared.history.Chapter.TheVariants.{Done};

    ghost ask = { Done };

    ghost state = { λ op. None };
}

/// A beginning of a warehouse's published list, as a writer tells it or a desk has seen it. It may be copied, and sent to another thread.
#[derive(Drop)]
pub struct Told {
    count: u64,
    seen: Seen<Chapter, u64, Law>,
}

impl Model for Told {
    ghost use Rattle.std.specs.Prelude.{◌≡◌, ◌+◌, length};
    ghost use Rattle.wh_desk.specs.Known.{Known, told, IsStory, operations};
    ghost use Rattle.wh_desk.specs.Inner.Known.{coded_known};

    ghost Value = { Known };

    ghost coded = { coded_known };

    ghost view = { λ t. told t.seen.book t.seen.log };

    ghost invariant = { λ t. (length t.seen.log ≡ t.count + 1) × IsStory (told t.seen.book t.seen.log) × (length (operations t.seen.log) ≡ t.count) };
}

impl Told {
    /// Makes a copy.
    pub fn share(&self) -> Told
        ensures same { result ≡ self.now }
        ensures well_formed { IsTrue (is_well_formed (length result.of.opening) result.list) }
        ensures limit { 2 ≤ result.of.limit }
    {
        Told {
            count: self.count,
            seen: self.seen.again(),
        }
    }

    /// Tells whether this has all that the other has. Where it has not, the other has all that this has.
    pub(crate) fn covers(&self, other: &Told) -> bool
        requires { other.now.book ≡ self.now.book }
        ensures begins { MatchBool result (Begins other.now self.now) (Begins self.now other.now) }
        ensures counts { result ≡ nat_le (length other.now.list) (length self.now.list) }
    {
        let mut both = self.seen.again();
        both.learn(&other.seen);
        other.count <= self.count
    }

    /// The history with one operation more.
    fn next(&self, word: &Word<Chapter, u64, Law>, op: &Op) -> Option<Told>
        requires word { word.now ≡ word_of self.now.book }
        requires story { IsStory (known self.now.book self.now.of (self.now.list ++ operation op.now ∷ [])) }
        ensures { IfSome result (λ t. t ≡ known self.now.book self.now.of (self.now.list ++ operation op.now ∷ [])) }
    {
        let count = self.count;
        if count == u64::MAX {
            return None;
        }
        let mut seen = self.seen.again();
        let mut offer: Offer<Chapter, u64, Law, Nothing> = seen.plain::<Nothing, Op, Add>(op);
        let mut pen = seen.no_pen();
        let found = word.compare_exchange::<Add, Nothing>(
            count,
            count + 1,
            &mut seen,
            &mut offer,
            &mut pen,
        );
        if found != count {
            return None;
        }
        Some(Told {
            count: count + 1,
            seen,
        })
    }
}

/// The right to go on with a history, which one owner has.
#[derive(Drop)]
pub struct History {
    word: Word<Chapter, u64, Law>,
    told: Told,
}

impl Model for History {
    ghost use Rattle.std.specs.Prelude.{◌≡◌};
    ghost use Rattle.wh_desk.specs.Known.{Known};
    ghost use Rattle.wh_desk.specs.Inner.Known.{coded_known};
    ghost use Rattle.wh_desk.specs.Inner.Histories.{word_of};

    ghost Value = { Known };

    ghost coded = { coded_known };

    ghost view = { λ h. h.told };

    ghost invariant = { λ h. h.word ≡ word_of h.told.book };
}

impl History {
    /// Begins the history of a warehouse with what this store shows.
    pub fn new(store: &Store) -> History
        requires { 2 ≤ store.now.limit }
        ensures { result ≡ known result.book (record { limit = store.now.limit; opening = current store.now }) [] }
    {
        let start: Start<Chapter, u64, Law> = Start::alone();
        let (seen, mut pens) = Seen::open_row::<Store, Opens>(store, start, 1);
        let mut pen = pens.take();
        History {
            word: Word::tracked(0, &mut pen),
            told: Told { count: 0, seen },
        }
    }

    /// Returns the history so far.
    pub fn told(&self) -> Told
        ensures { result ≡ self.now }
    {
        self.told.share()
    }

    /// Adds an operation, and returns whether it did. It does not where another went on with the history, or the count is full.
    pub fn add(&mut self, op: &Op) -> bool
        requires { IsStory (known self.old.book self.old.of (self.old.list ++ operation op.now ∷ [])) }
        ensures { MatchBool result (self.new ≡ known self.old.book self.old.of (self.old.list ++ operation op.now ∷ [])) (self.new ≡ self.old) }
    {
        match self.told.next(&self.word, op) {
            Some(told) => {
                self.told = told;
                true
            }
            None => false,
        }
    }
}
