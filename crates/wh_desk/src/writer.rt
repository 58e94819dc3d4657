//! Publishes a warehouse's operations, as its one writer.

ghost use Rattle.std.specs.Prelude.{◌≡◌, ◌≢◌, ◌≤◌, ◌<◌, [], ◌∷◌, ◌++◌, None, Some, Ok, Err, length, is_some, nat_le, if◌then◌else◌, IfOk, IfErr, OnOk, OnErr, IsTrue, MatchBool, MatchOption, MatchResult};
ghost use Rattle.wh_row.specs.Bag.{empty};
ghost use Rattle.wh_store.specs.Operations.{operation};
ghost use Rattle.wh_store.specs.Refusals.{refusal};
ghost use Rattle.wh_store.specs.Versions.{is_active, is_well_formed, number, table_in};
ghost use Rattle.wh_store.specs.Faults.{publish_refusal, refused, CountsRefusal, IsOkUnlessMemory, Ends, EndsLater};
ghost use Rattle.wh_store.specs.Ledgers.{ledger, gone_out, versions_in};
ghost use Rattle.wh_desk.specs.Known.{Begins, known};
ghost use Rattle.wh_desk.specs.Writers.{published, waiting, written, written_of};
ghost use Rattle.wh_desk.specs.Inner.Writers.{IsWriter, end_of};

use crate::history::Told;
use crate::inner::Inner;
use crate::kept::Publication;
use crate::steps::publish_raw;
use std::alloc::AllocError;
use std::marker::Model;
use std::sync::Wait;
use wh_row::Bag;
use wh_store::{
    Ended, Op, Publish, PublishFault, RefusedEnds, told_law, well_formed_goes_on_law, window_law,
};

/// The writer of a warehouse, which is not dropped: end it by [`Writer::end`].
/// It is seen as the warehouse, the list that it has published, the operation that it holds, and how many of its give-ups were refused.
pub struct Writer {
    pub(crate) inner: Inner,
    pub(crate) refused_ends: RefusedEnds,
}

impl Model for Writer {
    ghost use Rattle.wh_desk.specs.Writers.{Writing, writing, written_of};
    ghost use Rattle.wh_desk.specs.Inner.Writers.{IsWriter, coded_writing};

    ghost Value = { Writing };

    ghost coded = { coded_writing };

    ghost view = { λ w. writing (written_of w.inner) w.refused_ends.count };

    ghost invariant = { λ w. IsWriter w.inner };
}

/// How an operation ends the night, if it does.
fn end_of(op: &Op) -> Option<Ended>
    ensures { result ≡ end_of (operation op.now) }
{
    match op {
        Op::Begin => None,
        Op::Put(_, _) => None,
        Op::Commit => Some(Ended::Committed),
        Op::GiveUp => Some(Ended::GivenUp),
    }
}

/// Hands what is held over to the copies, where it waits.
fn hand_over(inner: &mut Inner) -> Result<(), AllocError>
    requires { IsWriter inner.old }
    ensures writer { IsWriter inner.new }
    ensures same { written_of inner.new ≡ written_of inner.old }
    ensures over { OnOk result (inner.new.held ≡ None) }
{
    if let Some(publication) = inner.held.take() {
        if let Err(publication) = inner.raw.append(publication) {
            inner.held = Some(publication);
            return Err(AllocError);
        }
    }
    Ok(())
}

/// How what waits still ends the night.
fn ends_after(done: &Result<(), AllocError>, ends: Option<Ended>) -> Option<Ended>
    ensures { MatchResult done.now (λ _. result ≡ None) (λ _. result ≡ ends) }
{
    match done {
        Ok(()) => None,
        Err(_) => ends,
    }
}

/// Publishes what waits in the copies.
fn publish_rest<R: Wait>(inner: &mut Inner, rt: &R) -> Result<(), AllocError>
    requires writer { IsWriter inner.old }
    requires none { inner.old.held ≡ None }
    ensures writer { IsWriter inner.new }
    ensures list { MatchResult result (λ _. written_of inner.new ≡ written (written_of inner.old).book (ledger (written_of inner.old).ledger.of (gone_out (written_of inner.old).ledger) None)) (λ _. written_of inner.new ≡ written_of inner.old) }
{
    window_law();
    well_formed_goes_on_law();
    let done = publish_raw(rt, &mut inner.raw);
    inner.ends = ends_after(&done, inner.ends);
    done
}

/// Publishes what is held.
fn publish_held<R: Wait>(inner: &mut Inner, rt: &R) -> Result<(), AllocError>
    requires { IsWriter inner.old }
    ensures writer { IsWriter inner.new }
    ensures list { MatchResult result (λ _. written_of inner.new ≡ written (written_of inner.old).book (ledger (written_of inner.old).ledger.of (gone_out (written_of inner.old).ledger) None)) (λ _. written_of inner.new ≡ written_of inner.old) }
{
    hand_over(inner)?;
    publish_rest(inner, rt)
}

/// Holds an operation that is not refused, where none is held. Nothing has changed where memory is refused.
fn hold(inner: &mut Inner, op: Op) -> bool
    requires writer { IsWriter inner.old }
    requires none { waiting inner.old ≡ [] }
    requires free { refusal inner.old.raw.desk.shown.value.store (operation op) ≡ None }
    ensures writer { IsWriter inner.new }
    ensures held { written_of inner.new ≡ written (written_of inner.old).book (ledger (written_of inner.old).ledger.of (written_of inner.old).ledger.list (if result then Some (operation op) else None)) }
{
    well_formed_goes_on_law();
    if !inner.history.add(&op) {
        return false;
    }
    inner.ends = end_of(&op);
    let front = inner.history.told();
    inner.held = Some(Publication { op, front });
    true
}

impl Writer {
    /// Publishes an operation.
    /// Fails with [`PublishFault::Held`], or else with the first of a store's reasons. A refusal publishes nothing.
    pub fn publish<R: Wait>(&mut self, rt: &R, op: Op) -> Result<(), PublishFault>
        ensures book { self.new.book ≡ self.old.book }
        ensures refused_ends { self.new.refused_ends ≡ self.old.refused_ends }
        ensures ok { OnOk result (self.new.ledger ≡ ledger self.old.ledger.of (self.old.ledger.list ++ operation op ∷ []) None) }
        ensures err { IfErr result (λ fault. self.new.ledger ≡ refused self.old.ledger (operation op) fault) }
        ensures refused { MatchOption (publish_refusal self.old.ledger (operation op)) (IsOkUnlessMemory result) (λ fault. result ≡ Err fault) }
    {
        if self.held() {
            return Err(PublishFault::Held);
        }
        if let Some(fault) = self.inner.raw.published().store.refuses(&op) {
            return Err(PublishFault::of_store(fault));
        }
        if !hold(&mut self.inner, op) {
            return Err(PublishFault::Memory { held: false });
        }
        match publish_held(&mut self.inner, rt) {
            Ok(()) => Ok(()),
            Err(_) => Err(PublishFault::Memory { held: true }),
        }
    }

    /// Publishes what is held, and then gives up the night that is open, if one is.
    /// Fails for want of memory, and only where there is something to publish. Then what was held may have gone out, and the end of the
    /// night may be held.
    pub fn give_up<R: Wait>(&mut self, rt: &R) -> Result<Ended, AllocError>
        ensures book { self.new.book ≡ self.old.book }
        ensures refused_ends { CountsRefusal result self.old.refused_ends self.new.refused_ends }
        ensures ends { MatchResult result (Ends self.old.ledger self.new.ledger) (λ _. EndsLater self.old.ledger self.new.ledger) }
    {
        let result = self.end_night(rt);
        if result.is_err() {
            self.refused_ends = self.refused_ends.and_one();
        }
        result
    }

    /// Publishes what is held, and gives up the night that is open, if one is; a refusal is not counted yet.
    #[tactic(auto, using(wh_store::proofs::Idle::idle_ends))]
    fn end_night<R: Wait>(&mut self, rt: &R) -> Result<Ended, AllocError>
        ensures book { self.new.book ≡ self.old.book }
        ensures refused_ends { self.new.refused_ends ≡ self.old.refused_ends }
        ensures ends { MatchResult result (Ends self.old.ledger self.new.ledger) (λ _. EndsLater self.old.ledger self.new.ledger) }
    {
        if !self.held() && !self.active() {
            return Ok(Ended::NoneOpen);
        }
        let ends = self.inner.ends;
        publish_held(&mut self.inner, rt)?;
        if self.active() {
            return match self.publish(rt, Op::GiveUp) {
                Ok(()) => Ok(Ended::GivenUp),
                Err(_) => Err(AllocError),
            };
        }
        Ok(ends.unwrap_or(Ended::NoneOpen))
    }

    /// Returns what is published.
    pub fn tell(&self) -> Told
        ensures { result ≡ published self.now }
    {
        self.inner.raw.published().front.share()
    }

    /// Tells whether all that was told, or that a desk has seen, is published by this writer. Where it is not, all that the writer has
    /// published was told, and more.
    pub fn has(&self, told: &Told) -> bool
        requires { told.now.book ≡ self.now.book }
        ensures begins { MatchBool result (Begins told.now (published self.now)) (Begins (published self.now) told.now) }
        ensures counts { result ≡ nat_le (length told.now.list) (length self.now.ledger.list) }
    {
        self.inner.raw.published().front.covers(told)
    }

    /// Returns the number of the current version.
    pub fn current(&self) -> u64
        ensures number { result ≡ number (versions_in self.now.ledger.of self.now.ledger.list) }
        ensures well_formed { IsTrue (is_well_formed (length self.now.ledger.of.opening) self.now.ledger.list) }
    {
        self.inner.raw.published().store.number()
    }

    /// Tells whether a night is open.
    pub fn active(&self) -> bool
        ensures { result ≡ is_active (versions_in self.now.ledger.of self.now.ledger.list) }
    {
        self.inner.raw.published().store.is_active()
    }

    /// Tells whether an operation is held.
    pub fn held(&self) -> bool
        ensures { result ≡ is_some self.now.ledger.held }
    {
        self.inner.held.is_some() || self.inner.raw.has_pending_operations()
    }

    /// Returns how many views there are: every version has a table for each.
    #[tactic(auto, using(wh_store::proofs::Views::newest_tables))]
    pub fn views(&self) -> usize
        ensures opening { result ≡ length self.now.ledger.of.opening }
        ensures newest { result ≡ length (versions_in self.now.ledger.of self.now.ledger.list).newest }
    {
        told_law();
        self.inner.raw.published().store.current_views()
    }

    /// Returns the table of a view in the current version.
    /// Fails for want of memory, and only where the table has rows.
    /// Takes O(n w) time for the view's n rows of w cells.
    pub fn table(&self, view: usize) -> Result<Bag, AllocError>
        requires { view < length (versions_in self.now.ledger.of self.now.ledger.list).newest }
        ensures table { IfOk result (λ table. table ≡ table_in (versions_in self.now.ledger.of self.now.ledger.list).newest view) }
        ensures memory { OnErr result (table_in (versions_in self.now.ledger.of self.now.ledger.list).newest view ≢ empty) }
    {
        told_law();
        self.inner.raw.published().store.table(view)
    }

    /// Ends the writer, once each desk has left the store. What is held is dropped, and desks are answered `Away` from then on.
    pub fn end<R: Wait>(self, rt: &R) {
        let Writer {
            inner,
            refused_ends: _,
        } = self;
        let Inner {
            raw,
            history: _history,
            held: _held,
            ends: _,
        } = inner;
        raw.take(rt);
    }
}

impl Publish for Writer {
    ghost use Rattle.logbook.specs.Pages.{Book};

    ghost kept = { λ w. w.ledger };

    ghost Home = { Book };

    ghost home = { λ w. w.book };

    ghost refused_ends = { λ w. w.refused_ends };

    fn publish<R: Wait>(&mut self, rt: &R, op: Op) -> Result<(), PublishFault> {
        Writer::publish(self, rt, op)
    }

    fn give_up<R: Wait>(&mut self, rt: &R) -> Result<Ended, AllocError> {
        Writer::give_up(self, rt)
    }

    fn current(&self) -> u64 {
        Writer::current(self)
    }

    fn active(&self) -> bool {
        Writer::active(self)
    }

    fn held(&self) -> bool {
        Writer::held(self)
    }

    fn views(&self) -> usize {
        Writer::views(self)
    }

    fn table(&self, view: usize) -> Result<Bag, AllocError> {
        Writer::table(self, view)
    }
}
