//! Reads what is published, at a desk that never waits.

ghost use Rattle.std.specs.Prelude.{◌≡◌, ◌⊎◌, ◌≤◌, ◌<◌, None, Some, Ok, Err, MatchBool, MatchOption, MatchResult, length, option_map};
ghost use mathlib.Core.List.{IsPrefix};
ghost use Rattle.left_right.specs.Sides.{view};
ghost use Rattle.wh_store.specs.Versions.{number};
ghost use Rattle.wh_store.specs.Ledgers.{versions_in};
ghost use Rattle.wh_desk.specs.Known.{Begins, known};
ghost use Rattle.wh_desk.specs.Rules.{IsCopy};
ghost use Rattle.wh_desk.specs.Desks.{sitting, sitting_of, Grows, OpensAt, NotOpened, Reads, NotRead};
ghost use Rattle.wh_desk.specs.Inner.Desks.{Knows, IsAnswerIn, IsDesk, IsPage, NoPage, ShowsRows};

use crate::chair::{Chair, DeskFault};
use crate::history::Told;
use crate::kept::Kept;
use crate::steps::{RawReader, RawReading, enter};
use core::mem::replace_with;
use std::marker::Model;
use wh_store::{Page, told_law};

/// A reader's place at the warehouse.
/// It is seen as the warehouse, the longest beginning of its published list that the desk has seen or was told, and the version of its
/// session.
#[derive(Drop)]
pub struct Desk {
    pub(crate) chair: Chair,
}

impl Model for Desk {
    ghost use Rattle.wh_desk.specs.Desks.{Sitting, sitting_of};
    ghost use Rattle.wh_desk.specs.Inner.Desks.{coded_sitting, IsDesk};

    ghost Value = { Sitting };

    ghost coded = { coded_sitting };

    ghost view = { λ d. sitting_of d.chair };

    ghost invariant = { λ d. IsDesk d.chair };
}

/// Takes the copy that is shown, where it has all that was seen and told. Otherwise the desk stays as it is.
fn look(chair: Chair) -> Result<(RawReading, Told), Chair>
    requires { IsDesk chair }
    ensures { MatchResult result (λ r. IsCopy r.0.part.value × (r.1 ≡ r.0.part.value.front) × Begins chair.front r.1 × (view r.0.place ≡ Some r.1)) (λ r. IsDesk r × (sitting_of r ≡ sitting_of chair)) }
{
    let Chair {
        reader,
        front,
        session,
    } = chair;
    let reader = match enter(reader) {
        Err(reader) => reader,
        Ok(reading) => {
            let shown = reading.get().front.share();
            if shown.covers(&front) {
                return Ok((reading, shown));
            }
            reading.leave()
        }
    };
    Err(Chair {
        reader,
        front,
        session,
    })
}

/// Reads a copy, in a session of this version.
fn read(
    kept: &Kept,
    version: u64,
    view: usize,
    after: Option<&[i64]>,
    limit: usize,
) -> Result<Page, DeskFault>
    requires copy { IsCopy kept.now }
    requires least { 1 ≤ limit }
    requires most { limit ≤ 256 }
    ensures answer { MatchResult result (λ page. IsPage (sitting kept.now.front (Some version)) version view (option_map (λ row. row.now) after.entry) limit page) (NoPage (sitting kept.now.front (Some version)) version view) }
    ensures memory { result ≡ Err DeskFault.Memory → ShowsRows (sitting kept.now.front (Some version)) view (option_map (λ row. row.now) after.entry) limit }
{
    told_law();
    let store = &kept.store;
    if !store.unexpired(version) {
        return Err(DeskFault::Expired {
            version,
            current: store.number(),
            active: store.is_active(),
        });
    }
    if view >= store.views(version) {
        return Err(DeskFault::NoView);
    }
    match store.visible(version, view, after, limit) {
        Ok(page) => Ok(page),
        Err(_) => Err(DeskFault::Memory),
    }
}

/// Reads a copy, in a session of this version, and answers by the rule of readers.
#[tactic(auto, using(crate::proofs::Answering::by_rule))]
fn answer(
    kept: &Kept,
    version: u64,
    view: usize,
    after: Option<&[i64]>,
    limit: usize,
) -> Result<Page, DeskFault>
    requires copy { IsCopy kept.now }
    requires least { 1 ≤ limit }
    requires most { limit ≤ 256 }
    ensures { IsAnswerIn (sitting kept.now.front (Some version)) version view (option_map (λ row. row.now) after.entry) limit result }
{
    read(kept, version, view, after, limit)
}

/// The number of the current version of a copy.
fn current(kept: &Kept) -> u64
    requires { IsCopy kept.now }
    ensures { result ≡ number (versions_in kept.now.front.of kept.now.front.list) }
{
    kept.store.number()
}

/// Opens a session at the version that is shown.
fn open_at(chair: Chair) -> (Chair, Result<u64, DeskFault>)
    requires desk { IsDesk chair }
    requires none { chair.session ≡ None }
    ensures desk { IsDesk result.0 }
    ensures answer { MatchResult result.1 (OpensAt (sitting_of chair) (sitting_of result.0)) (NotOpened (sitting_of chair) (sitting_of result.0)) }
{
    match look(chair) {
        Err(chair) => (chair, Err(DeskFault::Away)),
        Ok((reading, front)) => {
            let version = current(reading.get());
            let chair = Chair {
                reader: reading.leave(),
                front,
                session: Some(version),
            };
            (chair, Ok(version))
        }
    }
}

/// Reads a page in the session that is open.
fn page_at(
    chair: Chair,
    view: usize,
    after: Option<&[i64]>,
    limit: usize,
) -> (Chair, Result<Page, DeskFault>)
    requires desk { IsDesk chair }
    requires least { 1 ≤ limit }
    requires most { limit ≤ 256 }
    ensures desk { IsDesk result.0 }
    ensures answer { MatchResult result.1 (Reads (sitting_of chair) (sitting_of result.0) view (option_map (λ row. row.now) after.entry) limit) (NotRead (sitting_of chair) (sitting_of result.0) view (option_map (λ row. row.now) after.entry) limit) }
{
    let Some(version) = chair.session else {
        return (chair, Err(DeskFault::NoSession));
    };
    match look(chair) {
        Err(chair) => (chair, Err(DeskFault::Away)),
        Ok((reading, front)) => {
            let page = answer(reading.get(), version, view, after, limit);
            let chair = Chair {
                reader: reading.leave(),
                front,
                session: Some(version),
            };
            (chair, page)
        }
    }
}

impl Desk {
    /// Has the desk see, from now on, no less than was told. Returns whether that is now all that the desk has seen or was told.
    pub fn learn(&mut self, told: Told) -> bool
        requires { told.book ≡ self.old.book }
        ensures exact { MatchBool result (self.new.list ≡ told.list) (length told.list < length self.new.list) }
        ensures one { (self.new.list ≡ self.old.list) ⊎ (self.new.list ≡ told.list) }
        ensures seen { Grows self.old self.new }
        ensures told { (told.of ≡ self.new.of) × IsPrefix told.list self.new.list }
        ensures session { self.new.session ≡ self.old.session }
    {
        if self.chair.front.covers(&told) {
            return told.covers(&self.chair.front);
        }
        self.chair.front = told;
        true
    }

    /// Returns all that the desk has seen and was told, to be handed to another thread.
    pub fn seen(&self) -> Told
        ensures { result ≡ known self.now.book self.now.of self.now.list }
    {
        self.chair.front.share()
    }

    /// Opens a session at the current version, and returns this version.
    /// Fails with SessionOpen, then with Away.
    #[tactic(auto, using(crate::proofs::Growing::opens_grow))]
    pub fn open(&mut self) -> Result<u64, DeskFault>
        ensures grows { Grows self.old self.new }
        ensures answer { MatchResult result (OpensAt self.old self.new) (NotOpened self.old self.new) }
    {
        if self.chair.session.is_some() {
            return Err(DeskFault::SessionOpen);
        }
        replace_with(&mut self.chair, (), |chair, _| open_at(chair))
    }

    /// Returns a page of a view in the session's version: its first rows after this one, or from its beginning, at most `limit`.
    /// Fails with NoSession, then Away, Expired and NoView. Memory may come at any point, but is wanted for the page's rows alone.
    /// Takes O(w (log n + p)) time for the view's n rows of w cells, p of which it walks through: also those that the version does not
    /// show.
    #[tactic(auto, using(crate::proofs::Growing::reads_grow))]
    pub fn page(
        &mut self,
        view: usize,
        after: Option<&[i64]>,
        limit: usize,
    ) -> Result<Page, DeskFault>
        requires least { 1 ≤ limit }
        requires most { limit ≤ 256 }
        ensures grows { Grows self.old self.new }
        ensures answer { MatchResult result (Reads self.old self.new view (option_map (λ row. row.now) after.entry) limit) (NotRead self.old self.new view (option_map (λ row. row.now) after.entry) limit) }
    {
        replace_with(
            &mut self.chair,
            (view, after, limit),
            |chair, (view, after, limit)| page_at(chair, view, after, limit),
        )
    }

    /// Returns the version of the session that is open; `None` where none is.
    pub fn session(&self) -> Option<u64>
        ensures { result ≡ self.now.session }
    {
        self.chair.session
    }

    /// Ends the session.
    /// Fails with NoSession where none is open.
    pub fn close(&mut self) -> Result<(), DeskFault>
        ensures closed { self.new ≡ record self.old { session = None } }
        ensures refused { MatchOption self.old.session (result ≡ Err DeskFault.NoSession) (λ _. result ≡ Ok tt) }
    {
        if self.chair.session.is_none() {
            return Err(DeskFault::NoSession);
        }
        self.chair.session = None;
        Ok(())
    }
}
