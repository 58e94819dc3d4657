//! What publishes, but refuses one of its operations and some give-ups.

ghost use Rattle.std.specs.Prelude.{◌≡◌, ◌≤◌, ◌++◌, ◌∷◌, [], None, false, IfOk, MatchResult, option_map};
ghost use Rattle.wh_store.specs.Operations.{operation};
ghost use Rattle.wh_store.specs.Versions.{versions_of};
ghost use Rattle.wh_store.specs.Windows.{Shows, current};
ghost use Rattle.wh_store.specs.Faults.{Ends, EndsLater, ended};
ghost use Rattle.wh_store.specs.Ledgers.{ledger, gone_out, versions_in, with_held};

use crate::nights::journal::Journal;
use std::alloc::{AllocError, Global};
use std::marker::Model;
use std::sync::Wait;
use wh_row::Bag;
use wh_store::{Ended, Op, Publish, PublishFault, RefusedEnds, Store};

/// What is refused.
#[derive(Clone, Copy)]
pub(crate) struct Refusals {
    /// How many operations go out before one is refused, if one is.
    pub(crate) after: Option<usize>,
    /// Whether that one is held.
    pub(crate) holds: bool,
    /// How many give-ups are refused.
    pub(crate) give_ups: usize,
}

impl Refusals {
    /// Whether the operation that comes now is refused.
    fn is_reached(&mut self) -> bool {
        match self.after {
            Some(0) => {
                self.after = None;
                true
            }
            Some(left) => {
                self.after = Some(left - 1);
                false
            }
            None => false,
        }
    }

    /// Whether the give-up that comes now is refused.
    fn is_give_up_refused(&mut self) -> bool {
        if self.give_ups == 0 {
            return false;
        }
        self.give_ups -= 1;
        true
    }
}

/// How the night ended that is not open once this has gone out.
fn ended_by(held: &Option<Op>) -> Ended
    ensures { result ≡ ended (option_map operation held.now) false }
{
    match held {
        Some(Op::Commit) => Ended::Committed,
        Some(Op::GiveUp) => Ended::GivenUp,
        _ => Ended::NoneOpen,
    }
}

/// Publishes into a journal. Seen as the ledger, which is all that was published and what is held, and how many give-ups were refused.
#[derive(Drop)]
pub(crate) struct Refusing {
    journal: Journal,
    held: Option<Op>,
    refusals: Refusals,
    refused_ends: RefusedEnds,
}

impl Model for Refusing {
    ghost use Rattle.std.specs.Prelude.{ℕ, option_map};
    ghost use Rattle.std.specs.Coded.{coded×, coded_ℕ};
    ghost use Rattle.wh_store.specs.Operations.{operation};
    ghost use Rattle.wh_store.specs.Ledgers.{Ledger, ledger};
    ghost use Rattle.wh_store.specs.Inner.Codes.{coded_ledger};

    ghost Value = { Ledger × ℕ };

    ghost coded = { coded× coded_ledger coded_ℕ };

    ghost view = { λ r. (ledger r.journal.of r.journal.list (option_map operation r.held), r.refused_ends.count) };
}

impl Refusing {
    /// Over a store in which nothing was done yet.
    pub(crate) fn new(
        alloc: Global,
        store: Store,
        refusals: Refusals,
    ) -> Result<Refusing, AllocError>
        requires new { Shows store (current store) [] }
        requires limit { 2 ≤ store.limit }
        ensures { IfOk result (λ r. r.0 ≡ ledger (record { limit = store.limit; opening = current store }) [] None) }
    {
        Ok(Refusing {
            journal: Journal::new(alloc, store)?,
            held: None,
            refusals,
            refused_ends: RefusedEnds::none(),
        })
    }

    /// The tables of the current version.
    pub(crate) fn tables(&self, alloc: Global) -> Result<Vec<Bag>, AllocError>
        ensures { IfOk result (λ tables. tables.items ≡ (versions_in self.now.0.of self.now.0.list).newest) }
    {
        self.journal.tables(alloc)
    }

    /// All that was published, in its order.
    pub(crate) fn published(&self) -> &[Op] {
        self.journal.done()
    }

    /// Publishes what is held, which stays held where that is refused.
    fn send_held(&mut self) -> Result<(), AllocError>
        ensures { MatchResult result (λ _. self.new ≡ (ledger self.old.0.of (gone_out self.old.0) None, self.old.1)) (λ _. self.new ≡ self.old) }
    {
        match std::mem::replace(&mut self.held, None) {
            None => Ok(()),
            Some(op) => match self.journal.add(op) {
                Ok(()) => Ok(()),
                Err(op) => {
                    self.held = Some(op);
                    Err(AllocError)
                }
            },
        }
    }

    /// Gives up, before a refusal is counted.
    #[tactic(auto, using(wh_store::proofs::Idle::idle_ends))]
    fn end_night(&mut self) -> Result<Ended, AllocError>
        ensures ends { MatchResult result (Ends self.old.0 self.new.0) (λ _. EndsLater self.old.0 self.new.0) }
        ensures refused_ends { self.new.1 ≡ self.old.1 }
    {
        if self.held.is_none() && !self.journal.is_active() {
            return Ok(Ended::NoneOpen);
        }
        if self.refusals.is_give_up_refused() {
            return Err(AllocError);
        }
        let ended = ended_by(&self.held);
        self.send_held()?;
        if !self.journal.is_active() {
            return Ok(ended);
        }
        match self.journal.add(Op::GiveUp) {
            Ok(()) => Ok(Ended::GivenUp),
            Err(_) => Err(AllocError),
        }
    }
}

impl Publish for Refusing {
    ghost kept = { λ r. r.0 };

    ghost Home = { Unit {0} };

    ghost home = { λ r. tt };

    ghost refused_ends = { λ r. r.1 };

    fn publish<R: Wait>(&mut self, _rt: &R, op: Op) -> Result<(), PublishFault> {
        if self.held.is_some() {
            return Err(PublishFault::Held);
        }
        if let Some(fault) = self.journal.refuses(&op) {
            return Err(PublishFault::of_store(fault));
        }
        if self.refusals.is_reached() {
            if self.refusals.holds {
                self.held = Some(op);
                return Err(PublishFault::Memory { held: true });
            }
            return Err(PublishFault::Memory { held: false });
        }
        match self.journal.add(op) {
            Ok(()) => Ok(()),
            Err(_) => Err(PublishFault::Memory { held: false }),
        }
    }

    fn give_up<R: Wait>(&mut self, _rt: &R) -> Result<Ended, AllocError> {
        let result = self.end_night();
        if result.is_err() {
            self.refused_ends = self.refused_ends.and_one();
        }
        result
    }

    fn current(&self) -> u64 {
        self.journal.current()
    }

    fn active(&self) -> bool {
        self.journal.is_active()
    }

    fn held(&self) -> bool {
        self.held.is_some()
    }

    #[tactic(auto, using(wh_store::proofs::Views::newest_tables))]
    fn views(&self) -> usize {
        self.journal.views()
    }

    fn table(&self, view: usize) -> Result<Bag, AllocError> {
        self.journal.table(view)
    }
}
