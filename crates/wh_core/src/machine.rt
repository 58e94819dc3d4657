//! Keeps what a machine has beside its catalogue, and answers the events that need no more.

ghost use Rattle.std.specs.Prelude.{◌≡◌, ◌≢◌, ◌⊎◌, ◌<◌, ◌≤◌, ◌==◌, ◌||◌, not, nat_lt, ◌+◌, ◌^◌, ℕ, length, false, drop, replicate, slice_get, List, [], ◌∷◌, ◌++◌, None, Some, IfOk, OnErr, OnOk, MatchOption};
ghost use Rattle.wh_row.specs.Weigh.{Counted};
ghost use Rattle.wh_store.specs.Kept.{AreTables};
ghost use Rattle.wh_store.specs.Operations.{Operation, Opens, Writes, operation};
ghost use Rattle.wh_store.specs.Pages.{Contents};
ghost use Rattle.wh_store.specs.Refusals.{refusal};
ghost use Rattle.wh_store.specs.Versions.{number, versions_of};
ghost use Rattle.wh_store.specs.Windows.{Shows, applied};
ghost use Rattle.wh_carry.specs.Legs.{legs_of};
ghost use Rattle.wh_carry.specs.Course.{AreParts, IsEnd};
ghost use Rattle.wh_core.specs.Laws.{IsSetup};
ghost use Rattle.wh_core.specs.Log.{Log, is_open, logged, nights_begun};
ghost use Rattle.wh_core.specs.Nights.{Setup, next_night, versions};
ghost use Rattle.wh_core.specs.Replies.{IsReply};
ghost use Rattle.wh_carry.specs.Night.{AreAllowed};
ghost use Rattle.wh_core.specs.Standing.{Stands};
ghost use Rattle.wh_core.specs.Inner.Standing.{IsRunning, page_in, wave_in};

use crate::event::Event;
use crate::laws::published_are_well_formed;
use crate::reply::{Cause, Reply, cause_of};
use crate::session::{Seat, goes_on, mark_after};
use std::alloc::{AllocError, Global};
use wh_carry::{Course, Part};
use wh_maint::MaintFault;
use wh_row::Bag;
use wh_store::{MAX_KEYS, Op, Store, StoreFault, told_law, versions_stay_law, well_formed_law};

/// The versions, the tables that the next night begins from, the sessions of the desks, the jobs of the workers, and of the
/// night that began last what becomes of it, which part of it is in turn, and how many jobs of that part are drawn and done.
#[derive(Drop)]
pub(crate) struct Machine {
    pub(crate) alloc: Global,
    pub(crate) store: Store,
    // Those of the current version, or while a night is open those that it ends with. Where there are none, the store's are copied.
    pub(crate) tables: Option<Vec<Bag>>,
    pub(crate) seats: Vec<Option<Seat>>,
    pub(crate) holders: Vec<Option<usize>>,
    pub(crate) course: Course,
    pub(crate) place: usize,
    pub(crate) drawn: usize,
    pub(crate) done: usize,
}

fn no_seats(alloc: Global, desks: usize) -> Result<Vec<Option<Seat>>, AllocError>
    ensures { IfOk result (λ seats. seats.items ≡ replicate desks None) }
{
    let mut seats = Vec::new(alloc);
    for _ in 0..desks {
        seats.push(None)?;
    }
    Ok(seats)
}

fn no_jobs(alloc: Global, workers: usize) -> Result<Vec<Option<usize>>, AllocError>
    ensures { IfOk result (λ holders. holders.items ≡ replicate workers None) }
{
    let mut holders = Vec::new(alloc);
    for _ in 0..workers {
        holders.push(None)?;
    }
    Ok(holders)
}

fn free_each(holders: &mut [Option<usize>])
    ensures free { (w : ℕ) → w < length holders.new → slice_get holders.new w ≡ Some None }
{
    for holder in holders.iter_mut() {
        *holder = None;
    }
}

/// No worker holds a job any more.
fn free_all(holders: &mut Vec<Option<usize>>)
    ensures free { (w : ℕ) → w < length holders.old.items → slice_get holders.new.items w ≡ Some None }
    ensures len { length holders.new.items ≡ length holders.old.items }
{
    free_each(holders.as_mut_slice());
}

/// The outcomes of the jobs of the wave in turn, if one is.
fn outcomes_at(course: &Course, place: usize) -> Option<&[Option<MaintFault>]>
    ensures { MatchOption result (wave_in (drop place course.now.parts.items) ≡ None) (λ outcomes. wave_in (drop place course.now.parts.items) ≡ Some outcomes.now) }
{
    if place >= course.parts.len() {
        return None;
    }
    match &course.parts[place] {
        Part::Wave(outcomes) => Some(outcomes.as_slice()),
        Part::Page(_) => None,
    }
}

/// The operation that puts the page in turn, if one is.
fn page_at(course: &Course, place: usize) -> Option<&Op>
    ensures { MatchOption result (page_in (drop place course.now.parts.items) ≡ None) (λ op. page_in (drop place course.now.parts.items) ≡ Some op.now) }
{
    if place >= course.parts.len() {
        return None;
    }
    match &course.parts[place] {
        Part::Page(op) => Some(op),
        Part::Wave(_) => None,
    }
}

/// Whether a page may have so many rows.
pub(crate) fn is_limit(limit: usize) -> bool
    ensures { result ≡ not ((limit == 0) || nat_lt 256 limit) }
{
    limit >= 1 && limit <= MAX_KEYS
}

/// Why the part at this place, or the end of the night where there is none, cannot be come to, if it cannot.
fn hindrance(course: &Course, place: usize) -> Option<&MaintFault>
    ensures { MatchOption result ((drop place course.now.parts.items ≢ []) ⊎ (course.now.stop ≡ None)) (λ fault. (drop place course.now.parts.items ≡ []) × (course.now.stop ≡ Some fault.now)) }
{
    if place < course.parts.len() {
        None
    } else {
        course.stop.as_ref()
    }
}

impl Machine {
    /// Makes a machine over these tables, as version 0. Sessions of the last so many versions can be read.
    pub(crate) fn new(
        alloc: Global,
        tables: Vec<Bag>,
        desks: usize,
        workers: usize,
        versions: usize,
    ) -> Result<Machine, AllocError>
        requires tables { AreTables tables.items }
        requires least { 2 ≤ versions }
        requires most { versions ≤ 4 }
        ensures { IfOk result (λ machine. (s : Setup) → s.opening ≡ tables.items → s.desks ≡ desks → s.workers ≡ workers → s.versions ≡ versions → Stands s [] machine) }
    {
        let store = Store::new(alloc, tables.as_slice(), versions)?;
        let seats = no_seats(alloc, desks)?;
        let holders = no_jobs(alloc, workers)?;
        Ok(Machine {
            alloc,
            store,
            tables: Some(tables),
            seats,
            holders,
            course: Course {
                parts: Vec::new(alloc),
                stop: None,
            },
            place: 0,
            drawn: 0,
            done: 0,
        })
    }

    pub(crate) fn open(&mut self, desk: usize) -> Reply
        ensures { (s : Setup) (log : Log) → Stands s log self.old → Stands s (logged log (Event.Open desk) result) self.new × IsReply s log (Event.Open desk) result }
    {
        if desk >= self.seats.len() {
            return Reply::Refused(Cause::NoDesk);
        }
        if self.seats[desk].is_some() {
            return Reply::Refused(Cause::SessionOpen);
        }
        let version = self.store.number();
        self.seats[desk] = Some(Seat {
            version,
            mark: None,
        });
        Reply::Session(version)
    }

    pub(crate) fn read(&mut self, desk: usize, view: usize, limit: usize) -> Reply
        ensures { (s : Setup) (log : Log) → Stands s log self.old → Stands s (logged log (Event.Read desk view limit) result) self.new × IsReply s log (Event.Read desk view limit) result }
    {
        if desk >= self.seats.len() {
            return Reply::Refused(Cause::NoDesk);
        }
        let Some(seat) = &self.seats[desk] else {
            return Reply::Refused(Cause::NoSession);
        };
        let version = seat.version;
        if !self.store.unexpired(version) {
            let current = self.store.number();
            let active = self.store.is_active();
            return Reply::Refused(Cause::Expired(version, current, active));
        }
        if view >= self.store.views(version) {
            return Reply::Refused(Cause::NoView);
        }
        if !is_limit(limit) {
            return Reply::Refused(Cause::Limit);
        }
        told_law();
        let after = goes_on(view, &seat.mark);
        let Ok(page) = self.store.visible(version, view, after, limit) else {
            return Reply::Refused(Cause::Memory);
        };
        let Ok(mark) = mark_after(self.alloc, view, &page) else {
            return Reply::Refused(Cause::Memory);
        };
        self.seats[desk] = Some(Seat { version, mark });
        Reply::Page(page)
    }

    pub(crate) fn close(&mut self, desk: usize) -> Reply
        ensures { (s : Setup) (log : Log) → Stands s log self.old → Stands s (logged log (Event.Close desk) result) self.new × IsReply s log (Event.Close desk) result }
    {
        if desk >= self.seats.len() {
            return Reply::Refused(Cause::NoDesk);
        }
        if self.seats[desk].is_none() {
            return Reply::Refused(Cause::NoSession);
        }
        self.seats[desk] = None;
        Reply::Closed
    }

    pub(crate) fn take(&mut self, worker: usize) -> Reply
        ensures { (s : Setup) (log : Log) → Stands s log self.old → Stands s (logged log (Event.Take worker) result) self.new × IsReply s log (Event.Take worker) result }
    {
        if worker >= self.holders.len() {
            return Reply::Refused(Cause::NoWorker);
        }
        if !self.store.is_active() {
            return Reply::Refused(Cause::NoNight);
        }
        if self.holders[worker].is_some() {
            return Reply::Refused(Cause::Busy);
        }
        let Some(outcomes) = outcomes_at(&self.course, self.place) else {
            return Reply::Refused(Cause::NoJob);
        };
        if self.drawn >= outcomes.len() {
            return Reply::Refused(Cause::NoJob);
        }
        let job = self.drawn;
        self.holders[worker] = Some(job);
        self.drawn += 1;
        Reply::Job(job)
    }

    pub(crate) fn done(&mut self, worker: usize) -> Reply
        ensures { (s : Setup) (log : Log) → Stands s log self.old → Stands s (logged log (Event.Done worker) result) self.new × IsReply s log (Event.Done worker) result }
    {
        if worker >= self.holders.len() {
            return Reply::Refused(Cause::NoWorker);
        }
        if !self.store.is_active() {
            return Reply::Refused(Cause::NoNight);
        }
        let Some(job) = self.holders[worker] else {
            return Reply::Refused(Cause::Idle);
        };
        // A job that is held is one of the wave in turn.
        let Some(outcomes) = outcomes_at(&self.course, self.place) else {
            return Reply::Refused(Cause::Idle);
        };
        if job >= outcomes.len() {
            return Reply::Refused(Cause::Idle);
        }
        if let Some(fault) = &outcomes[job] {
            return Reply::Refused(cause_of(fault));
        }
        if self.done < outcomes.len() - 1 {
            self.holders[worker] = None;
            self.done += 1;
            return Reply::Done;
        }
        if let Some(fault) = hindrance(&self.course, self.place + 1) {
            return Reply::Refused(cause_of(fault));
        }
        self.holders[worker] = None;
        self.turn_over();
        Reply::Done
    }

    /// The part in turn is over.
    fn turn_over(&mut self)
        requires { self.old.place < length self.old.course.parts.items }
        ensures { self.new ≡ record { alloc = self.old.alloc; store = self.old.store; tables = self.old.tables; seats = self.old.seats; holders = self.old.holders; course = self.old.course; place = self.old.place + 1; drawn = 0; done = 0 } }
    {
        self.place += 1;
        self.drawn = 0;
        self.done = 0;
    }

    pub(crate) fn page_in(&mut self) -> Reply
        requires { IsRunning self.old }
        ensures { (s : Setup) (log : Log) → Stands s log self.old → Stands s (logged log Event.PageIn result) self.new × IsReply s log Event.PageIn result }
    {
        if !self.store.is_active() {
            return Reply::Refused(Cause::NoNight);
        }
        let Some(op) = page_at(&self.course, self.place) else {
            return Reply::Refused(Cause::NotReady);
        };
        if let Some(fault) = hindrance(&self.course, self.place + 1) {
            return Reply::Refused(cause_of(fault));
        }
        published_are_well_formed();
        well_formed_law();
        let rows = rows_of(op);
        let Ok(()) = apply_next(&mut self.store, op) else {
            return Reply::Refused(Cause::Memory);
        };
        self.turn_over();
        Reply::Paged(rows)
    }

    /// Makes the tables that the night ends with those of the current version.
    pub(crate) fn commit(&mut self) -> Reply
        ensures { (s : Setup) (log : Log) → IsSetup s → Stands s log self.old → Stands s (logged log Event.Commit result) self.new × IsReply s log Event.Commit result }
    {
        if !self.store.is_active() {
            return Reply::Refused(Cause::NoNight);
        }
        if self.place < self.course.parts.len() {
            return Reply::Refused(Cause::NotReady);
        }
        versions_stay_law();
        let Ok(()) = self.store.apply(&Op::Commit) else {
            unreachable!()
        };
        free_all(&mut self.holders);
        Reply::Version(self.store.number())
    }

    /// Forgets the tables that the night would end with. Those of before are gone: keeping them, or what takes them back, would cost every
    /// night memory, and a night is seldom given up.
    pub(crate) fn give_up(&mut self) -> Reply
        ensures { (s : Setup) (log : Log) → Stands s log self.old → Stands s (logged log Event.GiveUp result) self.new × IsReply s log Event.GiveUp result }
    {
        if !self.store.is_active() {
            return Reply::Refused(Cause::NoNight);
        }
        let Ok(()) = self.store.apply(&Op::GiveUp) else {
            unreachable!()
        };
        self.tables = None;
        free_all(&mut self.holders);
        Reply::Version(self.store.number())
    }

    /// Begins the next night, of which this becomes, and which ends with these tables.
    pub(crate) fn start(&mut self, course: Course, last: Option<Vec<Bag>>) -> Reply
        requires free { refusal self.old.store Opens ≡ None }
        ensures { (s : Setup) (log : Log) → Stands s log self.old → is_open log ≡ false → nights_begun log < length s.nights → number (versions s log) + 1 ≢ 2 ^ 64
            → AreAllowed (next_night s log) → AreParts (next_night s log) 0 (legs_of (next_night s log)) course.parts.items course.stop
            → IsEnd (next_night s log) last → Stands s (logged log Event.Begin result) self.new × IsReply s log Event.Begin result }
    {
        if let Some(fault) = hindrance(&course, 0) {
            return Reply::Refused(cause_of(fault));
        }
        let Ok(()) = apply_next(&mut self.store, &Op::Begin) else {
            return Reply::Refused(Cause::Memory);
        };
        free_all(&mut self.holders);
        self.tables = last;
        self.course = course;
        self.place = 0;
        self.drawn = 0;
        self.done = 0;
        Reply::Begun
    }
}

/// The tables of the store's current version, copied.
fn copied(alloc: Global, store: &Store) -> Result<Vec<Bag>, AllocError>
    ensures { IfOk result (λ tables. (opening : Contents) (ops : List Operation) → Shows store.now opening ops → tables.items ≡ (versions_of opening ops).newest) }
{
    let mut tables = Vec::new(alloc);
    for view in 0..store.current_views() {
        tables.push(store.table(view)?)?;
    }
    Ok(tables)
}

/// Takes the tables that are kept, or copies those of the store's current version where none are.
pub(crate) fn taken(
    alloc: Global,
    store: &Store,
    kept: &mut Option<Vec<Bag>>,
) -> Result<Vec<Bag>, AllocError>
    ensures tables { IfOk result (λ tables. MatchOption kept.old
        ((opening : Contents) (ops : List Operation) → Shows store.now opening ops → tables.items ≡ (versions_of opening ops).newest) (λ own. tables ≡ own)) }
    ensures none { kept.new ≡ None }
{
    match kept.take() {
        Some(tables) => Ok(tables),
        None => copied(alloc, store),
    }
}

/// Applies an operation that may come, so that want of memory is the one refusal.
fn apply_next(store: &mut Store, op: &Op) -> Result<(), AllocError>
    requires { refusal store.old (operation op.now) ≡ None }
    ensures shows { OnOk result ((opening : Contents) (ops : List Operation) → Shows store.old opening ops → Shows store.new opening (ops ++ operation op.now ∷ [])) }
    ensures ok { OnOk result (store.new ≡ applied store.old (operation op.now)) }
    ensures err { OnErr result (store.new ≡ store.old) }
{
    match store.apply(op) {
        Ok(()) => Ok(()),
        Err(StoreFault::Memory) => Err(AllocError),
        Err(_) => unreachable!(),
    }
}

/// How many rows an operation writes.
fn rows_of(op: &Op) -> usize
    ensures { (view : ℕ) (rows : Counted) → operation op.now ≡ Writes view rows → result ≡ length rows }
{
    match op {
        Op::Put(_, rows) => rows.len(),
        _ => 0,
    }
}
