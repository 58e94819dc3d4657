//! Makes readers that go through all views of version 0: what each asks, and how many rows it was given.

ghost use Rattle.std.specs.Prelude.{◌≡◌, ℕ, List, length, map, replicate, sum_by, Some, IfOk, IfSome};
ghost use Rattle.std.specs.List.{All};
ghost use Rattle.wh_desk.specs.declared.askers.Asker.{Asker as AskerOf};
ghost use Rattle.wh_desk.specs.Askers.{AreAnswered};
ghost use Rattle.wh_desk.specs.Known.{Known};
ghost use Rattle.wh_night.specs.Serving.{AreGiven, AreRows, HasRead, IsAt, IsSeated, rests, rows_given, rows_of, rows_told};
ghost use Rattle.wh_night.specs.Inner.Serving.{GivesRows};

use std::alloc::{AllocError, Global};
use wh_desk::{Answer, Answered, Ask, Asker, Desk, Reader};
use wh_store::{pages_join_law, versions_stay_law};

/// How many rows a reader asks for at a time.
const PAGE_ROWS: usize = 256;

/// Asks for so many views, each to its end.
fn rests_of(alloc: Global, views: usize) -> Result<Vec<Ask>, AllocError>
    ensures { IfOk result (λ asks. asks.items ≡ rests views) }
{
    let mut asks = Vec::new(alloc);
    for view in 0..views {
        asks.push(Ask::Rest(view, PAGE_ROWS))?;
    }
    Ok(asks)
}

/// A reader of this number at this desk, where it opens a session of version 0, that is to read so many views.
fn reader_at(alloc: Global, number: usize, desk: Desk, views: usize) -> Option<Asker>
    ensures { IfSome result (λ asker. (told : Known) → IsAt told desk → IsSeated told views asker) }
{
    let mut desk = desk;
    let Ok(0) = desk.open() else {
        return None;
    };
    let Ok(asks) = rests_of(alloc, views) else {
        return None;
    };
    Some(Asker {
        number,
        reader: Reader::new(desk),
        asks,
    })
}

/// Makes a reader at each desk. It is `None` where one has no session of version 0, or for want of memory.
pub(crate) fn seat_readers(alloc: Global, desks: Vec<Desk>, views: usize) -> Option<Vec<Asker>>
    ensures len { IfSome result (λ askers. length askers.items ≡ length desks.items) }
    ensures seated { (told : Known) → All (IsAt told) desks.items → IfSome result (λ askers. All (IsSeated told views) askers.items) }
{
    let mut desks = desks;
    let mut askers = Vec::new(alloc);
    for number in 0..desks.len() {
        let desk = desks.pop()?;
        let asker = reader_at(alloc, number, desk, views)?;
        let Ok(()) = askers.push(asker) else {
            return None;
        };
    }
    Some(askers)
}

/// How many rows a view has that was read to its end.
fn rows_told(answer: &Answer) -> Option<usize>
    ensures { IfSome result (λ rows. AreRows answer.now × (rows ≡ rows_told answer.now)) }
{
    match answer {
        Answer::Rows(rows) => Some(*rows),
        _ => None,
    }
}

/// How many rows all views have together that were read. None where one was not read to its end.
fn rows_in(answers: &[Answer]) -> Option<usize>
    ensures { IfSome result (λ rows. All AreRows answers.now × (rows ≡ sum_by rows_told answers.now)) }
{
    let mut rows: usize = 0;
    for answer in answers {
        rows = rows.checked_add(rows_told(answer)?)?;
    }
    Some(rows)
}

/// How many rows a reader was given, where it was answered.
fn rows_of_one(one: &Option<Answered>) -> Option<usize>
    ensures table { (n : ℕ) → IfSome one.now (GivesRows n) → IfSome result (λ rows. rows ≡ n) }
    ensures read { IfSome result (λ rows. HasRead one.now) }
    ensures rows { IfSome result (λ rows. rows ≡ rows_given one.now) }
{
    match one {
        Some(answered) => rows_in(&answered.answers),
        None => None,
    }
}

/// How many rows each of them was given.
fn rows_of_all(alloc: Global, answered: &[Option<Answered>]) -> Option<Vec<usize>>
    ensures table { (n : ℕ) → All (λ one. IfSome one (GivesRows n)) answered.now → IfSome result (λ all. all.items ≡ replicate (length answered.now) n) }
    ensures read { IfSome result (λ all. All HasRead answered.now) }
    ensures rows { IfSome result (λ all. all.items ≡ map rows_given answered.now) }
{
    let mut all = Vec::new(alloc);
    for one in answered {
        let rows = rows_of_one(one)?;
        if all.push(rows).is_err() {
            return None;
        }
    }
    Some(all)
}

/// What readers were given.
#[derive(Drop)]
pub(crate) struct Given {
    /// How many rows each was given.
    pub(crate) rows: Vec<usize>,
    /// How each was answered.
    pub(crate) answered: Vec<Option<Answered>>,
}

/// Returns how many rows each reader was given, with how it was answered. It is `None` where one was not answered, as for want of memory.
pub(crate) fn given_by(alloc: Global, answered: Option<Vec<Option<Answered>>>) -> Option<Given>
    ensures table { (told : Known) (askers : List AskerOf) → All (IsSeated told (length told.of.opening)) askers
        → IfSome answered (λ all. AreAnswered told askers all.items) → IfSome result (λ given. given.rows.items ≡ replicate (length askers) (rows_of told.of.opening)) }
    ensures same { IfSome result (λ given. answered ≡ Some given.answered) }
    ensures given { IfSome result (λ given. AreGiven given.answered.items given.rows.items) }
{
    versions_stay_law();
    pages_join_law();
    let answered = answered?;
    let rows = rows_of_all(alloc, &answered)?;
    Some(Given { rows, answered })
}
