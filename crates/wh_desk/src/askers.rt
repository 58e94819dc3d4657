//! Has several readers ask, each in a thread of its own where one can be started.

ghost use Rattle.std.specs.Prelude.{◌≡◌, IfSome, IsTrue};
ghost use Rattle.std.specs.List.{All};
ghost use Rattle.wh_desk.specs.Askers.{AreAnswered, CanAsk, IsAnswered, IsHad};

use crate::asks::{Answer, Ask};
use crate::history::Told;
use crate::reader::Reader;
use crate::writer::Writer;
use std::alloc::Global;
use std::thread::{Threads, map_vec};

/// A listener that is told of each reader, by its number, in the thread in which the reader reads.
pub trait Watch {
    /// Is called once the reader has a session of this version, before it asks.
    fn entered(&self, reader: usize, version: u64);

    /// Is called when the reader asks no more.
    fn left(&self, reader: usize);
}

/// A reader, by its number, and what it is to ask.
#[derive(Drop)]
pub struct Asker {
    pub number: usize,
    pub reader: Reader,
    pub asks: Vec<Ask>,
}

/// A reader, with what it was answered.
#[derive(Drop)]
pub struct Answered {
    pub reader: Reader,
    /// The answers, one for each thing that the reader asked.
    pub answers: Vec<Answer>,
}

/// Has a reader ask all that it is to ask, at a desk that sees no less than was told. None where memory was refused.
fn ask_one<W: Watch>(alloc: Global, asker: Asker, told: &Told, watch: &W) -> Option<Answered>
    requires { CanAsk told.now asker }
    ensures { IfSome result (IsAnswered told.now asker) }
{
    let Asker {
        number,
        mut reader,
        asks,
    } = asker;
    reader.desk.learn(told.share());
    if let Some(version) = reader.desk.session() {
        watch.entered(number, version);
    }
    let answers = reader.ask_all(alloc, &asks);
    watch.left(number);
    match answers {
        Ok(answers) => Some(Answered { reader, answers }),
        Err(_) => None,
    }
}

/// Has each reader ask all that it is to ask, at a desk that sees no less than was told, and returns what each was answered.
/// It is `None` for a reader to which memory was refused, and `None` for all where it was refused to their list.
pub fn answer_each<W: Watch + Sync, R: Threads + Sync>(
    rt: &R,
    alloc: Global,
    askers: Vec<Asker>,
    told: &Told,
    watch: &W,
) -> Option<Vec<Option<Answered>>>
    requires { All (CanAsk told.now) askers.items }
    ensures { IfSome result (λ all. AreAnswered told.now askers.items all.items) }
{
    let ask_it = move |asker: Asker| -> Option<Answered>
        requires { CanAsk told.now asker }
        ensures { IfSome result (IsAnswered told.entry.now asker) }
    { ask_one(alloc, asker, told, watch) };
    match map_vec(rt, askers, &ask_it) {
        Ok(all) => Some(all),
        Err(_) => None,
    }
}

/// Tells whether a writer has all that these readers saw.
pub fn are_had(writer: &Writer, answered: &[Option<Answered>]) -> bool
    requires { All (λ a. IfSome a (λ a. a.reader.desk.book ≡ writer.now.book)) answered.now }
    ensures { IsTrue result → All (λ a. IfSome a (λ a. IsHad writer.now a.reader.desk)) answered.now }
{
    for one in answered {
        if let Some(reader) = one {
            if !writer.has(&reader.reader.desk.seen()) {
                return false;
            }
        }
    }
    true
}
