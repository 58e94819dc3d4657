//! Answers events, as the machine over a catalogue's views.

ghost use Rattle.std.specs.Prelude.{◌≡◌, ◌≢◌, ◌≤◌, length, slice_get, Some, [], ◌∷◌, List, IfOk, OnErr, OnOk, option_map};
ghost use Rattle.wh_dag.specs.Catalog.{IsCatalog};
ghost use Rattle.wh_maint.specs.Asked.{AreBags};
ghost use Rattle.wh_core.specs.Changes.{change_written};
ghost use Rattle.wh_core.specs.Headline.{ComesTrue};
ghost use Rattle.wh_core.specs.Laws.{IsSetup, log_after};
ghost use Rattle.wh_core.specs.Beginning.{IsBeginOf};
ghost use Rattle.wh_core.specs.Log.{Log, Began, logged};
ghost use Rattle.wh_core.specs.Nights.{GivenNight, Setup, setup_of, versions, with_nights};
ghost use Rattle.wh_core.specs.Replies.{IsLegalLog, IsLegalRun, IsPageReply, IsReply};
ghost use Rattle.wh_core.specs.Standing.{AreJudged, IsFresh, IsNightFor, IsStanding, StandsWith, catalog_of, given_of, nights_of};
ghost use Rattle.wh_core.specs.Tables.{readable_now, sizes_now};

use crate::event::Event;
use crate::laws::{runs_come_true, versions_are_contents};
use crate::machine::{Machine, taken};
use crate::options::MachineOptions;
use crate::reply::{Cause, Reply, cause_of};
use std::alloc::{AllocError, Global};
use std::collections::VecDeque;
use wh_carry::{base_changes, contents_are_fit_for_nights, course_of};
use wh_dag::Catalog;
use wh_formula::{RowTest, RowValue};
use wh_row::Bag;
use wh_strategy::Correct;

/// A warehouse, with the nights that it is to go through, its desks and its workers.
#[derive(Drop)]
pub struct Core<F: RowTest, G: RowValue> {
    alloc: Global,
    catalog: Catalog<F, G>,
    // Those that have not begun, in their order: a night that began leaves nothing here.
    nights: VecDeque<(Vec<Bag>, Correct)>,
    keys: usize,
    machine: Machine,
}

impl<F: RowTest + Drop, G: RowValue + Drop> Core<F, G> {
    /// Makes a machine that has done nothing yet, over these tables: the contents of a base, as `opening_contents` gives them, and from
    /// such contents `carry` and a published night. That tables are fit (`are_fit`) does not suffice. A night is the changes of the base
    /// views and a strategy that was judged over this catalogue's shape.
    /// Fails for want of memory.
    pub fn new(
        alloc: Global,
        catalog: Catalog<F, G>,
        tables: Vec<Bag>,
        nights: Vec<(Vec<Bag>, Correct)>,
        options: MachineOptions,
    ) -> Result<Core<F, G>, AllocError>
        requires setup { IsSetup (setup_of catalog options tables.items (nights_of nights.items)) }
        requires judged { AreJudged catalog nights.items }
        ensures stands { IfOk result (λ core. StandsWith (setup_of catalog options tables.items (nights_of nights.items)) [] core) }
        ensures fresh { IfOk result (λ core. IsFresh core) }
    {
        let MachineOptions {
            desks,
            workers,
            page_keys,
            versions,
        } = options;
        let machine = Machine::new(alloc, tables, desks, workers, versions)?;
        Ok(Core {
            alloc,
            catalog,
            nights: VecDeque::from_vec(nights),
            keys: page_keys,
            machine,
        })
    }

    /// Lends the catalogue, over whose shape the strategy of a night that is added has to be judged.
    pub fn catalog(&self) -> &Catalog<F, G>
        ensures { result.now ≡ catalog_of self.now }
    {
        &self.catalog
    }

    /// Adds a night behind those that the machine is to go through, also while one is open. The machine goes on as if it had had this night
    /// from the start, and a Begin finds it once the nights before it have ended.
    /// Fails for want of memory, and then leaves the machine as it was, without the night.
    pub fn add_night(&mut self, night: (Vec<Bag>, Correct)) -> Result<(), AllocError>
        requires standing { IsStanding self.old }
        requires night { IsNightFor self.old night }
        ensures stands { IsStanding self.new }
        ensures added { OnOk result ((s : Setup) (log : Log) → IsSetup s → StandsWith s log self.old → IsSetup (with_nights s (given_of night ∷ [])) × StandsWith (with_nights s (given_of night ∷ [])) log self.new) }
        ensures memory { OnErr result ((s : Setup) (log : Log) → StandsWith s log self.old → StandsWith s log self.new) }
    {
        self.nights.push_back(night)?;
        Ok(())
    }

    /// Adds a night behind the others and begins the one that is next: this one, where all others have begun. A night that is
    /// refused, for whatever cause, is not added, and leaves the machine as it was.
    pub fn begin_night(&mut self, night: (Vec<Bag>, Correct)) -> Reply
        requires standing { IsStanding self.old }
        requires night { IsNightFor self.old night }
        ensures stands { IsStanding self.new }
        ensures reply { (s : Setup) (log : Log) → IsSetup s → StandsWith s log self.old → IsBeginOf s log (given_of night) result }
        ensures begun { result ≡ Reply.Begun → (s : Setup) (log : Log) → IsSetup s → StandsWith s log self.old
            → IsSetup (with_nights s (given_of night ∷ [])) × StandsWith (with_nights s (given_of night ∷ [])) (Began ∷ log) self.new }
        ensures refused { result ≢ Reply.Begun → (s : Setup) (log : Log) → IsSetup s → StandsWith s log self.old → StandsWith s log self.new }
    {
        let Ok(()) = self.nights.push_back(night) else {
            return Reply::Refused(Cause::Memory);
        };
        match self.begin() {
            Reply::Begun => Reply::Begun,
            refusal => {
                self.take_back();
                refusal
            }
        }
    }

    /// Takes back the night that was added last, where it has not begun.
    fn take_back(&mut self)
        ensures { (s : Setup) (log : Log) (night : GivenNight) → IsLegalLog s log → StandsWith (with_nights s (night ∷ [])) log self.old → StandsWith s log self.new }
    {
        let _last = self.nights.pop_back();
    }

    /// Answers an event. An event that is refused, also for want of memory, changes nothing.
    pub fn step(&mut self, event: Event) -> Reply
        requires { IsStanding self.old }
        ensures stands { IsStanding self.new }
        ensures reply { (s : Setup) (log : Log) → IsSetup s → StandsWith s log self.old → StandsWith s (logged log event result) self.new × IsReply s log event result }
    {
        self.answer(event)
    }

    /// Answers a page of a view in the session of a desk: its first rows behind this one, which need not be there, or from its beginning.
    /// It is refused as a read is, and moves no bookmark.
    pub fn page(&self, desk: usize, view: usize, limit: usize, after: Option<&[i64]>) -> Reply
        ensures { (s : Setup) (log : Log) → StandsWith s log self.now → IsPageReply s log desk view limit (option_map (λ row. row.now) after.entry) result }
    {
        self.machine.page(desk, view, limit, after)
    }

    /// Returns how many rows the table of each view has in the current version, each row as often as it counts. No row is walked through
    /// where no night is open and the last one was not given up.
    /// Fails for want of memory.
    pub fn sizes(&self) -> Result<Vec<u128>, AllocError>
        ensures { IfOk result (λ sizes. (s : Setup) (log : Log) → StandsWith s log self.now → sizes.items ≡ sizes_now s log) }
    {
        self.machine.sizes()
    }

    /// Returns the versions that sessions can be read of, the current one last.
    /// Fails for want of memory.
    pub fn readable(&self) -> Result<Vec<u64>, AllocError>
        ensures { IfOk result (λ versions. (s : Setup) (log : Log) → StandsWith s log self.now → versions.items ≡ readable_now s log) }
    {
        self.machine.readable()
    }

    fn answer(&mut self, event: Event) -> Reply
        requires { IsStanding self.old }
        ensures reply { (s : Setup) (log : Log) → IsSetup s → StandsWith s log self.old → StandsWith s (logged log event result) self.new × IsReply s log event result }
    {
        match event {
            Event::Begin => self.begin(),
            Event::Take(worker) => self.machine.take(worker),
            Event::Done(worker) => self.machine.done(worker),
            Event::PageIn => self.machine.page_in(),
            Event::Commit => self.machine.commit(),
            Event::GiveUp => self.machine.give_up(),
            Event::Open(desk) => self.machine.open(desk),
            Event::Read(desk, view, limit) => self.machine.read(desk, view, limit),
            Event::Close(desk) => self.machine.close(desk),
        }
    }

    fn begin(&mut self) -> Reply
        requires { IsStanding self.old }
        ensures reply { (s : Setup) (log : Log) → IsSetup s → StandsWith s log self.old → StandsWith s (logged log Event.Begin result) self.new × IsReply s log Event.Begin result }
    {
        if self.machine.store.is_active() {
            return Reply::Refused(Cause::NightOpen);
        }
        let Some((changes, correct)) = self.nights.front() else {
            return Reply::Refused(Cause::NoNight);
        };
        if self.machine.store.number() == u64::MAX {
            return Reply::Refused(Cause::LastVersion);
        }
        versions_are_contents();
        contents_are_fit_for_nights();
        let Ok(tables) = taken(self.alloc, &self.machine.store, &mut self.machine.tables) else {
            return Reply::Refused(Cause::Memory);
        };
        let changes = changes.as_slice();
        if let Err(fault) = base_changes(self.alloc, &self.catalog, tables.as_slice(), changes) {
            self.machine.tables = Some(tables);
            return Reply::Refused(cause_of(&fault));
        }
        let Ok((course, last)) = course_of(
            self.alloc,
            &self.catalog,
            tables,
            changes,
            correct,
            self.keys,
        ) else {
            return Reply::Refused(Cause::Memory);
        };
        match self.machine.start(course, last) {
            Reply::Begun => {
                let _begun = self.nights.pop_front();
                Reply::Begun
            }
            refusal => refusal,
        }
    }

    /// Returns the change that the open night has written so far of a view: each row counts what it counts then, less what it counts in the
    /// current version. Once all is written, a commit makes the view's next table by it. No row changes of a view that is not there, or
    /// where no night is open.
    /// Fails for want of memory.
    /// Takes O(p + m w log n) time for the p pages that the night has put, with m rows of the view, of w cells, in a table of n.
    pub fn change(&self, view: usize) -> Result<Bag, AllocError>
        requires { IsStanding self.now }
        ensures { IfOk result (λ change. (s : Setup) (log : Log) → IsSetup s → StandsWith s log self.now → change ≡ change_written (versions s log) view) }
    {
        self.machine.change(view)
    }

    /// Answers events, one after another, from a machine that has done nothing yet.
    /// Fails for want of memory, before the first event, and only where there is one. Then nothing is changed.
    pub fn run(&mut self, events: &[Event]) -> Result<Vec<Reply>, AllocError>
        requires { IsFresh self.old }
        ensures replies { IfOk result (λ replies. (s : Setup) → IsSetup s → StandsWith s [] self.old → IsLegalRun s events.now replies.items × StandsWith s (log_after [] events.now replies.items) self.new) }
        ensures comes_true { IfOk result (λ replies. (s : Setup) → IsSetup s → StandsWith s [] self.old → ComesTrue s events.now replies.items) }
        ensures err { OnErr result (self.new ≡ self.old) }
        ensures memory { OnErr result (events.now ≢ []) }
    {
        let mut replies = Vec::new(self.alloc);
        replies.reserve(events.len())?;
        for event in events {
            let reply = self.step(*event);
            let Ok(()) = replies.push(reply) else {
                unreachable!()
            };
        }
        runs_come_true();
        Ok(replies)
    }
}
