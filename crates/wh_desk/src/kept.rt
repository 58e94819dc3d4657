//! Keeps the store, as the two copies do, beside the list that it shows.

ghost use Rattle.std.specs.Prelude.{◌≡◌};
ghost use Rattle.wh_desk.specs.Rules.{taken_in};

use crate::history::Told;
use left_right::Absorb;
use std::alloc::AllocError;
use wh_store::{Op, Store};

/// A publication: an operation, and the list that ends with it.
#[derive(Drop)]
pub struct Publication {
    pub op: Op,
    pub front: Told,
}

/// A store, and the list that it shows.
#[derive(Drop)]
pub struct Kept {
    pub store: Store,
    pub front: Told,
}

impl Absorb<Publication> for Kept {
    type State = Kept;

    ghost state = { λ k. k };

    ghost applied = { taken_in };

    fn absorb_first(&mut self, publication: &Publication, _other: &Kept) -> Result<(), AllocError> {
        if self.store.apply(&publication.op).is_err() {
            return Err(AllocError);
        }
        self.front = publication.front.share();
        Ok(())
    }
}
