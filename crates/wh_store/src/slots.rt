//! Shows what a row counts in the last versions.

ghost use Rattle.std.specs.Prelude.{◌≡◌, slice_get};
ghost use Rattle.wh_versions.specs.Rows.{read};

use std::marker::Model;
use wh_versions::VersionRow;

/// The pairs of a row, in as many places as its store keeps versions.
#[derive(Drop)]
pub(crate) enum Places {
    Two(VersionRow<2>),
    Three(VersionRow<3>),
    Four(VersionRow<4>),
}

/// The counts of a row in the last versions: pairs of a version's number and of what the row counts from that version on, the newest first.
#[derive(Drop)]
pub struct Slots {
    pub(crate) places: Places,
}

impl Model for Slots {
    ghost use Rattle.wh_versions.specs.Rows.{Pairs};
    ghost use Rattle.wh_versions.specs.Inner.Rows.{coded_pairs};

    ghost Value = { Pairs };

    ghost coded = { coded_pairs };

    ghost use Rattle.wh_store.specs.Inner.Slots.{pairs_of};

    ghost view = { λ s. pairs_of s.places };
}

impl Slots {
    /// Returns the pair at a place, the newest first; `None` where there are fewer.
    pub fn pair(&self, place: usize) -> Option<(u64, i64)>
        ensures { result ≡ slice_get self.now place }
    {
        match &self.places {
            Places::Two(pairs) => pairs.pair(place),
            Places::Three(pairs) => pairs.pair(place),
            Places::Four(pairs) => pairs.pair(place),
        }
    }

    /// Returns what a session of this version reads of the row: the count of the newest pair whose number is at most the version's, and 0
    /// where there is none.
    pub fn read(&self, version: u64) -> i64
        ensures { result ≡ read version self.now }
    {
        match &self.places {
            Places::Two(pairs) => pairs.read(version),
            Places::Three(pairs) => pairs.read(version),
            Places::Four(pairs) => pairs.read(version),
        }
    }
}
