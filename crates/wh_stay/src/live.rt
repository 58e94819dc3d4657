//! Begins nights from their parts, and answers events.

ghost use Rattle.std.specs.Prelude.{◌≡◌, ◌↔◌, ℕ, List, [], map, Ok, IfOk, IsTrue};
ghost use Rattle.wh_core.specs.Changes.{change_written};
ghost use Rattle.wh_core.specs.Laws.{IsSetup};
ghost use Rattle.wh_core.specs.Log.{Log, logged};
ghost use Rattle.wh_core.specs.Nights.{Setup, setup_of, versions};
ghost use Rattle.wh_core.specs.Replies.{IsReply};
ghost use Rattle.wh_core.specs.Standing.{StandsWith};
ghost use Rattle.wh_core.specs.Tables.{readable_now, sizes_now};
ghost use Rattle.wh_load.specs.ReadingNight.{AreReadRows, ChangeRows};
ghost use Rattle.wh_load.specs.ReadingShown.{shown_given};
ghost use Rattle.wh_text.specs.Inner.Dict.{BeginsWith};
ghost use Rattle.wh_text_catalogue.specs.Definitions.{shown_view};
ghost use Rattle.wh_text_catalogue.specs.FormulaKinds.{Texts};
ghost use Rattle.wh_stay.specs.Inner.After.{standing_after};
ghost use Rattle.wh_stay.specs.Standing.{IsLive, StandingOf, core_of, standing_of, standing_with, widths_of, with_texts};
ghost use Rattle.wh_stay.specs.Told.{IsCarriedOn, IsTold, night_in};

use crate::standing::{Live, Standing, StandingTexts};
use crate::told::NightTold;
use std::alloc::{AllocError, Global};
use std::thread::Threads;
use wh_core::{Cause, Core, Event, MachineOptions, Reply};
use wh_dag::Catalog;
use wh_formula::{RowTest, RowValue};
use wh_load::{Dict, GivenNight, LoadFault, Names, WrittenView};
use wh_row::Bag;
use wh_strategy::{CheckFault, check};
use wh_threads::ThreadBudget;

/// The worker that draws the jobs of all nights.
const WORKER: usize = 0;

/// Tells whether a worker is refused a job since it has one.
fn is_busy(reply: &Reply) -> bool
    ensures { IsTrue result ↔ (reply.now ≡ Reply.Refused Cause.Busy) }
{
    matches!(reply, Reply::Refused(Cause::Busy))
}

/// Tells whether a worker is refused a job since none is in turn.
fn is_without_job(reply: &Reply) -> bool
    ensures { IsTrue result ↔ (reply.now ≡ Reply.Refused Cause.NoJob) }
{
    matches!(reply, Reply::Refused(Cause::NoJob))
}

/// Tells whether a page is refused since none is in turn.
fn is_not_ready(reply: &Reply) -> bool
    ensures { IsTrue result ↔ (reply.now ≡ Reply.Refused Cause.NotReady) }
{
    matches!(reply, Reply::Refused(Cause::NotReady))
}

impl<F: RowTest + Drop, G: RowValue + Drop> Live<F, G> {
    /// Makes a warehouse that has done nothing yet, over these tables: the contents of a base, as `opening_contents` gives them. The views
    /// are those of the catalogue.
    /// Fails for want of memory.
    pub fn new(
        alloc: Global,
        catalog: Catalog<F, G>,
        tables: Vec<Bag>,
        given: StandingTexts,
        options: MachineOptions,
    ) -> Result<Live<F, G>, AllocError>
        requires setup { IsSetup (setup_of catalog options tables.items []) }
        requires widths { widths_of (map shown_view given.views.items) ≡ catalog.widths }
        ensures live { IfOk result (λ live. IsLive live) }
        ensures stands { IfOk result (λ live. StandsWith (setup_of catalog options tables.items []) [] (core_of live)) }
        ensures standing { IfOk result (λ live. standing_of live ≡ standing_with catalog given) }
    {
        let StandingTexts {
            views,
            texts,
            strategy,
        } = given;
        let names = Names::of(alloc, catalog.shape())?;
        let core = Core::new(alloc, catalog, tables, Vec::new(alloc), options)?;
        let standing = Standing {
            names,
            views,
            texts,
            strategy,
        };
        Ok(Live { core, standing })
    }

    /// Lends the names of the views, by which commands name them.
    pub fn names(&self) -> &Names
        ensures { result.now ≡ (standing_of self.now).names }
    {
        &self.standing.names
    }

    /// Lends the views, in the order of their numbers: the columns of a page that is read of one.
    pub fn views(&self) -> &[WrittenView]
        ensures { map shown_view result.now ≡ (standing_of self.now).views }
    {
        &self.standing.views
    }

    /// Lends the texts that cells stand for, with those of a night that is open.
    pub fn texts(&self) -> &Dict
        ensures { result.now ≡ (standing_of self.now).texts }
    {
        &self.standing.texts
    }

    /// Returns the change that the open night has written so far of a view: each row counts what it counts then, less what it counts in the
    /// current version. No row changes of a view that is not there, or where no night is open.
    /// Fails for want of memory.
    pub fn change(&self, view: usize) -> Result<Bag, AllocError>
        requires { IsLive self.now }
        ensures { IfOk result (λ change. (s : Setup) (log : Log) → IsSetup s → StandsWith s log (core_of self.now) → change ≡ change_written (versions s log) view) }
    {
        self.core.change(view)
    }

    /// Reads the parts of a night, adds it behind the others and begins it. A night that does not begin, for whatever cause, is not added:
    /// its texts are forgotten, and the warehouse is as it was.
    pub fn begin_night<R: Threads + Sync>(
        &mut self,
        budget: &ThreadBudget<'_, R>,
        parts: &[u8],
    ) -> NightTold
        requires { IsLive self.old }
        ensures live { IsLive self.new }
        ensures told { (s : Setup) (log : Log) → IsSetup s → StandsWith s log (core_of self.old) → IsTold s log (standing_of self.old) parts.now result (standing_of self.new) (core_of self.new) }
    {
        let before = self.standing.texts.len();
        let told = self.read_and_begin(budget, parts);
        if told.has_begun() {
            return told;
        }
        self.standing.texts.truncate(before);
        told
    }

    /// Begins the night that these parts give. Its texts stay, whatever is told.
    fn read_and_begin<R: Threads + Sync>(
        &mut self,
        budget: &ThreadBudget<'_, R>,
        parts: &[u8],
    ) -> NightTold
        requires { IsLive self.old }
        ensures live { IsLive self.new }
        ensures others { standing_of self.new ≡ with_texts (standing_of self.old) (standing_of self.new).texts }
        ensures begins { BeginsWith (standing_of self.old).texts (standing_of self.new).texts }
        ensures told { (s : Setup) (log : Log) → IsSetup s → StandsWith s log (core_of self.old)
            → IsTold s log (standing_of self.old) parts.now result (standing_after (standing_of self.old) result (standing_of self.new).texts) (core_of self.new) }
    {
        match self.standing.read_night(budget, parts) {
            Ok(night) => self.begin_given(budget.alloc, night),
            Err(fault) => NightTold::of(fault),
        }
    }

    /// Begins this night, where its strategy is correct.
    fn begin_given(&mut self, alloc: Global, night: GivenNight) -> NightTold
        requires live { IsLive self.old }
        requires fit { AreReadRows (ChangeRows 0) (standing_of self.old).views night.changes.items }
        ensures live { IsLive self.new }
        ensures standing { standing_of self.new ≡ standing_of self.old }
        ensures told { (s : Setup) (log : Log) (w : StandingOf) (parts : List ℕ) (texts : Texts) → IsSetup s → StandsWith s log (core_of self.old)
            → night_in w parts ≡ Ok (shown_given night, texts) → IsTold s log w parts result (standing_after w result texts) (core_of self.new) }
    {
        let GivenNight { changes, strategy } = night;
        match check(alloc, self.core.catalog().shape(), strategy) {
            Ok(correct) => NightTold::Replied(self.core.begin_night((changes, correct))),
            Err(CheckFault::Broken { rule, place }) => NightTold::Broken { rule, place },
            Err(CheckFault::Memory) => NightTold::Replied(Reply::Refused(Cause::Memory)),
        }
    }

    /// Carries the night on by one event, and returns the event and its reply: a job is drawn, or it is done, or a page is put. Returns
    /// `None` where nothing more is in turn, so that the night can be committed. A refusal changes nothing.
    pub fn carry_on(&mut self) -> Option<(Event, Reply)>
        requires { IsLive self.old }
        ensures live { IsLive self.new }
        ensures standing { standing_of self.new ≡ standing_of self.old }
        ensures told { (s : Setup) (log : Log) → IsSetup s → StandsWith s log (core_of self.old) → IsCarriedOn s log result (core_of self.new) }
    {
        let reply = self.core.step(Event::Take(WORKER));
        if is_busy(&reply) {
            let done = Event::Done(WORKER);
            return Some((done, self.core.step(done)));
        }
        if is_without_job(&reply) {
            return self.put_page();
        }
        Some((Event::Take(WORKER), reply))
    }

    /// Puts the next page, if one is in turn, where the first worker finds no job.
    fn put_page(&mut self) -> Option<(Event, Reply)>
        requires { IsLive self.old }
        ensures live { IsLive self.new }
        ensures standing { standing_of self.new ≡ standing_of self.old }
        ensures told { (s : Setup) (log : Log) → IsSetup s → StandsWith s log (core_of self.old) → IsReply s log (Event.Take 0) (Reply.Refused Cause.NoJob)
            → IsCarriedOn s log result (core_of self.new) }
    {
        let reply = self.core.step(Event::PageIn);
        if is_not_ready(&reply) {
            return None;
        }
        Some((Event::PageIn, reply))
    }

    /// Answers an event. An event that is refused, also for want of memory, changes nothing.
    pub fn answer(&mut self, event: Event) -> Reply
        requires { IsLive self.old }
        ensures live { IsLive self.new }
        ensures standing { standing_of self.new ≡ standing_of self.old }
        ensures reply { (s : Setup) (log : Log) → IsSetup s → StandsWith s log (core_of self.old) → StandsWith s (logged log event result) (core_of self.new) × IsReply s log event result }
    {
        self.core.step(event)
    }

    /// Returns how many rows the table of each view has in the current version, each row as often as it counts.
    /// Fails for want of memory.
    pub fn sizes(&self) -> Result<Vec<u128>, AllocError>
        ensures { IfOk result (λ sizes. (s : Setup) (log : Log) → StandsWith s log (core_of self.now) → sizes.items ≡ sizes_now s log) }
    {
        self.core.sizes()
    }

    /// Returns the versions that sessions can be read of, the current one last.
    /// Fails for want of memory.
    pub fn readable(&self) -> Result<Vec<u64>, AllocError>
        ensures { IfOk result (λ versions. (s : Setup) (log : Log) → StandsWith s log (core_of self.now) → versions.items ≡ readable_now s log) }
    {
        self.core.readable()
    }
}
