//! Keeps what a row counts in the last versions.

ghost use Rattle.std.specs.Prelude.{◌≡◌, ◌-◌, ◌≤ℤ◌, pos, [], length, slice_get};
ghost use Rattle.wh_versions.specs.Rows.{read, with_pair, without_pair, is_unread};
ghost use Rattle.wh_versions.specs.Inner.Rows.{BeginsWith, pairs_of};

use std::marker::Model;

/// The counts of a row in the last versions: at most N pairs of a version's number and a count, the newest first.
#[derive(Clone, Copy)]
pub struct VersionRow<const N: usize> {
    numbers: [u64; N],
    /// A count below zero tells that there are no more pairs.
    counts: [i64; N],
}

impl<const N: usize> Model for VersionRow<N> {
    ghost use Rattle.wh_versions.specs.Rows.{Pairs};
    ghost use Rattle.wh_versions.specs.Inner.Rows.{AreStored, coded_pairs, counts_of, numbers_of, pairs_of};

    ghost Value = { Pairs };

    ghost coded = { coded_pairs };

    ghost view = { λ r. pairs_of r.numbers r.counts };

    ghost inverse = { λ ps. record { numbers = numbers_of N ps; counts = counts_of N ps } };

    ghost inverse_ok = { λ a h i. record { numbers = h.numbers i; counts = h.counts i } };

    ghost invariant = { λ r. AreStored N r.numbers r.counts };
}

impl<const N: usize> VersionRow<N> {
    /// Makes a row without pairs.
    pub fn none() -> Self
        ensures { result ≡ [] }
    {
        VersionRow {
            numbers: [0; N],
            counts: [ABSENT; N],
        }
    }

    /// Returns what a session of this version reads of the row.
    pub fn read(self, version: u64) -> i64
        ensures { result ≡ read version self.entry }
    {
        read_places(&self.numbers, &self.counts, version)
    }

    /// Returns the pair at a place, the newest first; `None` where there are fewer.
    pub fn pair(self, place: usize) -> Option<(u64, i64)>
        ensures { result ≡ slice_get self.entry place }
    {
        pair_at(&self.numbers, &self.counts, place)
    }

    /// Tells whether no session of the N - 1 versions before a night reads anything.
    pub(crate) fn is_unread(self, night: u64) -> bool
        ensures { result ≡ is_unread (N - 1) night self.entry }
    {
        for back in 1..N {
            if self.read(night.saturating_sub(back as u64)) != 0 {
                return false;
            }
        }
        true
    }

    /// Returns the pairs once the night that writes this version has written a count.
    pub fn with(self, version: u64, count: i64) -> Self
        requires { pos 0 ≤ℤ count }
        ensures { result ≡ with_pair N version count self.entry }
    {
        if N == 0 {
            return self;
        }
        let mut numbers = self.numbers;
        let mut counts = self.counts;
        if begins_with(&self.numbers, &self.counts, version) {
            counts[0] = count;
            return VersionRow { numbers, counts };
        }
        numbers.copy_within(0..N - 1, 1);
        counts.copy_within(0..N - 1, 1);
        numbers[0] = version;
        counts[0] = count;
        VersionRow { numbers, counts }
    }

    /// Returns the pairs once the night that writes this version is given up.
    pub fn without(self, version: u64) -> Self
        ensures { result ≡ without_pair version self.entry }
    {
        if !begins_with(&self.numbers, &self.counts, version) {
            return self;
        }
        let mut numbers = self.numbers;
        let mut counts = self.counts;
        numbers.copy_within(1..N, 0);
        counts.copy_within(1..N, 0);
        numbers[N - 1] = 0;
        counts[N - 1] = ABSENT;
        VersionRow { numbers, counts }
    }
}

/// Stands in a place that has no pair.
const ABSENT: i64 = -1;

/// What a session of a version reads of the pairs in places.
fn read_places(numbers: &[u64], counts: &[i64], version: u64) -> i64
    requires { length counts.now ≡ length numbers.now }
    ensures { result ≡ read version (pairs_of numbers.now counts.now) }
{
    for place in 0..numbers.len() {
        if counts[place] < 0 {
            return 0;
        }
        if numbers[place] <= version {
            return counts[place];
        }
    }
    0
}

/// The pair at a place.
fn pair_at(numbers: &[u64], counts: &[i64], place: usize) -> Option<(u64, i64)>
    requires { length counts.now ≡ length numbers.now }
    ensures { result ≡ slice_get (pairs_of numbers.now counts.now) place }
{
    for before in 0..numbers.len() {
        if counts[before] < 0 {
            return None;
        }
        if before == place {
            return Some((numbers[place], counts[place]));
        }
    }
    None
}

/// Whether the newest pair is that of a version.
fn begins_with(numbers: &[u64], counts: &[i64], version: u64) -> bool
    requires { length counts.now ≡ length numbers.now }
    ensures { BeginsWith version numbers.now counts.now result }
{
    !numbers.is_empty() && counts[0] >= 0 && numbers[0] == version
}
