//! Says what is asked of whatever publishes a night.

ghost use Rattle.std.specs.Prelude.{◌≡◌, ◌≢◌, ◌++◌, ◌∷◌, [], ◌<◌, ℕ, List, None, length, is_some, IfOk, IfErr, OnOk, OnErr, IsTrue, MatchOption, MatchResult, Option};
ghost use Rattle.wh_row.specs.Bag.{empty};
ghost use Rattle.wh_store.specs.Operations.{operation};
ghost use Rattle.wh_store.specs.Versions.{is_active, is_well_formed, number, table_in};
ghost use Rattle.wh_store.specs.Faults.{publish_refusal, refused, CountsRefusal, IsOkUnlessMemory, Ends, EndsLater};
ghost use Rattle.wh_store.specs.Ledgers.{Ledger, ledger, versions_in};

use crate::operation::Op;
use crate::{Ended, PublishFault};
use std::alloc::AllocError;
use std::sync::Wait;
use wh_row::Bag;

/// A keeper of the published list of one warehouse, to which a night hands its operations one after another. The list is well formed. An
/// operation that could not be published for want of memory may be held, and goes out before any other.
pub trait Publish {
    ghost kept: { Self → Ledger };

    // By what warehouses are told apart.
    ghost Home: { Type 0 };

    ghost home: { Self → Home };

    // How many of its give-ups were refused.
    ghost refused_ends: { Self → ℕ };

    /// Publishes an operation.
    /// Fails with [`PublishFault::Held`], or else with the first of a store's reasons. A refusal publishes nothing.
    fn publish<R: Wait>(&mut self, rt: &R, op: Op) -> Result<(), PublishFault>
        ensures home { home self.new ≡ home self.old }
        ensures refused_ends { refused_ends self.new ≡ refused_ends self.old }
        ensures ok { OnOk result (kept self.new ≡ ledger (kept self.old).of ((kept self.old).list ++ operation op ∷ []) None) }
        ensures err { IfErr result (λ fault. kept self.new ≡ refused (kept self.old) (operation op) fault) }
        ensures refused { MatchOption (publish_refusal (kept self.old) (operation op)) (IsOkUnlessMemory result) (λ fault. result ≡ Err fault) };

    /// Publishes what is held, and then gives up the night that is open, if one is.
    /// Fails for want of memory, and only where there is something to publish. Then what was held may have gone out, and the end of the
    /// night may be held.
    fn give_up<R: Wait>(&mut self, rt: &R) -> Result<Ended, AllocError>
        ensures home { home self.new ≡ home self.old }
        ensures refused_ends { CountsRefusal result (refused_ends self.old) (refused_ends self.new) }
        ensures ends { MatchResult result (Ends (kept self.old) (kept self.new)) (λ _. EndsLater (kept self.old) (kept self.new)) };

    /// Returns the number of the current version.
    fn current(&self) -> u64
        ensures number { result ≡ number (versions_in (kept self.now).of (kept self.now).list) }
        ensures well_formed { IsTrue (is_well_formed (length (kept self.now).of.opening) (kept self.now).list) };

    /// Tells whether a night is open.
    fn active(&self) -> bool
        ensures { result ≡ is_active (versions_in (kept self.now).of (kept self.now).list) };

    /// Tells whether an operation is held.
    fn held(&self) -> bool
        ensures { result ≡ is_some (kept self.now).held };

    /// Returns how many views there are: every version has a table for each.
    fn views(&self) -> usize
        ensures opening { result ≡ length (kept self.now).of.opening }
        ensures newest { result ≡ length (versions_in (kept self.now).of (kept self.now).list).newest };

    /// Returns the table of a view in the current version.
    /// Fails for want of memory, and only where the table has rows.
    fn table(&self, view: usize) -> Result<Bag, AllocError>
        requires nothing_held { (kept self.now).held ≡ None }
        requires view { view < length (versions_in (kept self.now).of (kept self.now).list).newest }
        ensures table { IfOk result (λ table. table ≡ table_in (versions_in (kept self.now).of (kept self.now).list).newest view) }
        ensures memory { OnErr result (table_in (versions_in (kept self.now).of (kept self.now).list).newest view ≢ empty) };
}
