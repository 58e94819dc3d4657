//! Has a reader ask at a desk, thing by thing, and keeps where it goes on.

ghost use Rattle.std.specs.Prelude.{◌≡◌, ◌≢◌, None, [], length, option_map, IfOk, IfErr, OnErr, OnOk};
ghost use Rattle.std.specs.List.{All};
ghost use Rattle.wh_desk.specs.Desks.{Grows};
ghost use Rattle.wh_desk.specs.declared.asks.Answer.TheVariants as answer;
ghost use Rattle.wh_desk.specs.declared.asks.Ask.TheVariants as ask;
ghost use Rattle.wh_store.specs.Readers.{bookmark_after, goes_on};
ghost use Rattle.wh_desk.specs.Reading.{AreTurns, IsAskable, IsCall, IsLimit, IsTurn, stand_of};

use crate::asks::{Answer, Ask};
use crate::chair::DeskFault;
use crate::desk::Desk;
use std::alloc::{AllocError, Global};
use wh_row::Row;
use wh_store::Page;

/// The place where a reader goes on: in this view, behind this row.
#[derive(Drop)]
pub struct Place {
    pub view: usize,
    pub row: Row,
}

/// A desk, and where in its session the reader goes on: behind the last page that it was given, if more rows follow.
#[derive(Drop)]
pub struct Reader {
    pub desk: Desk,
    pub place: Option<Place>,
}

/// The row behind which a page of the view begins.
fn row_in(view: usize, place: &Option<Place>) -> Option<&[i64]>
    ensures { option_map (λ row. row.now) result ≡ goes_on view (option_map stand_of place.now) }
{
    match place {
        Some(place) if place.view == view => Some(place.row.as_slice()),
        _ => None,
    }
}

/// Where a page of the view leaves its reader. Memory is wanted for its last row alone.
fn place_after(alloc: Global, view: usize, page: &Page) -> Result<Option<Place>, AllocError>
    ensures place { IfOk result (λ place. option_map stand_of place ≡ bookmark_after view page.now) }
    ensures memory { OnErr result (page.now.rows ≢ []) }
{
    if page.last {
        return Ok(None);
    }
    match page.rows.last() {
        Some((row, _)) => {
            let row = Row::from_slice(alloc, row)?;
            Ok(Some(Place { view, row }))
        }
        None => Ok(None),
    }
}

/// How many rows a page has.
fn count_of(page: &Page) -> usize
    ensures { result ≡ length page.now.rows }
{
    page.rows.len()
}

/// Whether no row follows a page.
fn is_last(page: &Page) -> bool
    ensures { result ≡ page.now.last }
{
    page.last
}

impl Reader {
    /// Makes a reader that begins where views begin.
    pub fn new(desk: Desk) -> Reader
        ensures { (result.desk ≡ desk) × (result.place ≡ None) }
    {
        Reader { desk, place: None }
    }

    /// Asks for a session.
    fn open(&mut self) -> Answer
        ensures { IsTurn self.old.desk (option_map stand_of self.old.place) ask.Open result self.new.desk (option_map stand_of self.new.place) }
    {
        match self.desk.open() {
            Ok(version) => {
                self.place = None;
                Answer::Session(version)
            }
            Err(fault) => Answer::Refused(fault),
        }
    }

    /// Asks for the next page of a view.
    fn page(
        &mut self,
        alloc: Global,
        view: usize,
        limit: usize,
    ) -> Result<Result<Page, DeskFault>, AllocError>
        requires limit { IsLimit limit }
        ensures page { IfOk result (λ r. IfOk r (λ page. IsCall self.old.desk (option_map stand_of self.old.place) (ask.Page view limit) (answer.Page page) self.new.desk (option_map stand_of self.new.place))) }
        ensures refused { IfOk result (λ r. IfErr r (λ fault. IsCall self.old.desk (option_map stand_of self.old.place) (ask.Page view limit) (answer.Refused fault) self.new.desk (option_map stand_of self.new.place))) }
    {
        let page = match self.desk.page(view, row_in(view, &self.place), limit) {
            Ok(page) => page,
            Err(fault) => return Ok(Err(fault)),
        };
        self.place = place_after(alloc, view, &page)?;
        Ok(Ok(page))
    }

    /// Asks for one page after another, up to the last one of the view.
    fn rest(&mut self, alloc: Global, view: usize, limit: usize) -> Result<Answer, AllocError>
        requires limit { IsLimit limit }
        ensures { IfOk result (λ said. IsTurn self.old.desk (option_map stand_of self.old.place) (ask.Rest view limit) said self.new.desk (option_map stand_of self.new.place)) }
    {
        let mut rows: usize = 0;
        for _ in 0..u64::MAX {
            let page = match self.page(alloc, view, limit)? {
                Ok(page) => page,
                Err(fault) => return Ok(Answer::Refused(fault)),
            };
            let Some(more) = rows.checked_add(count_of(&page)) else {
                return Err(AllocError);
            };
            if is_last(&page) {
                return Ok(Answer::Rows(more));
            }
            rows = more;
        }
        Err(AllocError)
    }

    /// Ends the session.
    fn close(&mut self) -> Answer
        ensures { IsTurn self.old.desk (option_map stand_of self.old.place) ask.Close result self.new.desk (option_map stand_of self.new.place) }
    {
        match self.desk.close() {
            Ok(()) => {
                self.place = None;
                Answer::Closed
            }
            Err(fault) => Answer::Refused(fault),
        }
    }

    /// Asks this, and answers what the desk says.
    fn ask(&mut self, alloc: Global, asked: &Ask) -> Result<Answer, AllocError>
        requires { IsAskable asked.now }
        ensures { IfOk result (λ said. IsTurn self.old.desk (option_map stand_of self.old.place) asked.now said self.new.desk (option_map stand_of self.new.place)) }
    {
        match asked {
            Ask::Open => Ok(self.open()),
            Ask::Page(view, limit) => match self.page(alloc, *view, *limit)? {
                Ok(page) => Ok(Answer::Page(page)),
                Err(fault) => Ok(Answer::Refused(fault)),
            },
            Ask::Rest(view, limit) => self.rest(alloc, *view, *limit),
            Ask::Close => Ok(self.close()),
        }
    }

    /// Asks all this, one after another, and returns what the desk answers to each. It goes on after a refusal.
    /// Fails where memory is refused for an answer, or for the row behind which the reader goes on; then no answer is returned.
    pub fn ask_all(&mut self, alloc: Global, asks: &[Ask]) -> Result<Vec<Answer>, AllocError>
        requires { All IsAskable asks.now }
        ensures grows { OnOk result (Grows self.old.desk self.new.desk) }
        ensures turns { IfOk result (λ answers. AreTurns self.old.desk (option_map stand_of self.old.place) asks.now answers.items self.new.desk (option_map stand_of self.new.place)) }
    {
        let mut answers = Vec::with_capacity(alloc, asks.len())?;
        for number in 0..asks.len() {
            let said = self.ask(alloc, &asks[number])?;
            answers.push(said)?;
        }
        Ok(answers)
    }
}
