//! The sizes of the views, and what each view counts as by the weight of its rows. Their limits keep all work within 128 bits.

ghost use Rattle.std.specs.Prelude.{◌≡◌, ◌↔◌, ◌<◌, length, IfOk, IfErr, IsTrue, slice_get, Some};
ghost use Rattle.wh_strategy.specs.Sizes.{IsSizeRow, IsLight, AreSizeRows, IsFirstOutside, size_of, sizes_of};

use std::marker::Model;

/// The most rows that a [`SizeRow`] may tell: 2^40.
pub const MAX_ROWS: u64 = 1 << 40;

/// The most that a row may weigh.
pub const MAX_WEIGHT: u64 = 1_000;

/// A view's rows before and after a night, how many of its rows change, and what one of them weighs, as handed in.
#[derive(Debug, Clone, Copy, PartialEq, Eq)]
pub struct SizeRow {
    /// The rows before, at most [`MAX_ROWS`].
    pub pre: u64,
    /// The rows after, at most [`MAX_ROWS`], and no further from `pre` than `change`.
    pub post: u64,
    /// The rows that come and go, at most [`MAX_ROWS`].
    pub change: u64,
    /// How many rows each row counts as wherever work is reckoned, 1 to [`MAX_WEIGHT`]: with 1, rows are counted as they are.
    pub weight: u64,
}

/// What a view counts as wherever work is reckoned: its rows before and after a night, and those that change, each as often
/// as it weighs.
#[derive(Debug, Clone, Copy, PartialEq, Eq)]
pub struct Size {
    /// The rows before times the weight.
    pub pre: u64,
    /// The rows after times the weight.
    pub post: u64,
    /// The rows that come and go times the weight.
    pub change: u64,
}

impl SizeRow {
    /// Returns whether no number of rows is above [`MAX_ROWS`], post is no further from pre than the change, and the weight is 1 to
    /// [`MAX_WEIGHT`].
    pub fn is_within(&self) -> bool
        ensures { IsTrue result ↔ IsSizeRow self.now }
    {
        self.pre <= MAX_ROWS
            && self.post <= MAX_ROWS
            && self.change <= MAX_ROWS
            && self.post <= self.pre + self.change
            && self.pre <= self.post + self.change
            && 1 <= self.weight
            && self.weight <= MAX_WEIGHT
    }

    /// Returns what the view counts as: each number times the weight.
    fn weighed(self) -> Size
        requires { IsSizeRow self }
        ensures value { result ≡ size_of self }
        ensures light { IsLight result }
    {
        Size {
            pre: self.pre * self.weight,
            post: self.post * self.weight,
            change: self.change * self.weight,
        }
    }
}

/// The first view whose row is outside its limits: a number is above 2^40, post is further from pre than the change, or the weight is not 1
/// to 1,000.
#[derive(Debug, Clone, Copy, PartialEq, Eq)]
pub struct OutOfRange(pub usize);

/// The sizes of all views, each within its limits.
#[derive(Debug, Drop)]
pub struct Sizes {
    rows: Vec<SizeRow>,
}

impl Model for Sizes {
    ghost use Rattle.std.specs.Prelude.{List};
    ghost use Rattle.wh_strategy.specs.declared.sizes.SizeRow.{SizeRow};
    ghost use Rattle.wh_strategy.specs.Sizes.{AreSizeRows};

    ghost Value = { List SizeRow };

    ghost view = { λ s. s.rows.items };

    ghost invariant = { λ s. AreSizeRows s.rows.items };
}

impl Sizes {
    /// Takes the rows, one for each view by its number. Fails with the first view whose row is outside its limits; the rows are then
    /// dropped. Takes no memory. Takes O(V) for V views.
    pub fn new(rows: Vec<SizeRow>) -> Result<Sizes, OutOfRange>
        ensures ok { IfOk result (λ s. (s ≡ rows.items) × AreSizeRows rows.items) }
        ensures err { IfErr result (λ e. IsFirstOutside rows.items e.0) }
    {
        for (view, row) in rows.iter().enumerate() {
            if !row.is_within() {
                return Err(OutOfRange(view));
            }
        }
        Ok(Sizes { rows })
    }

    /// Returns how many views have sizes here.
    pub fn len(&self) -> usize
        ensures len { result ≡ length self.now }
        ensures within { AreSizeRows self.now }
    {
        self.rows.len()
    }

    /// Returns whether no view has sizes here.
    pub fn is_empty(&self) -> bool
        ensures { IsTrue result ↔ (length self.now ≡ 0) }
    {
        self.rows.is_empty()
    }

    /// Returns the sizes of a view, as they were handed in.
    pub fn row(&self, view: usize) -> SizeRow
        requires { view < length self.now }
        ensures value { slice_get self.now view ≡ Some result }
        ensures within { IsSizeRow result }
    {
        self.rows[view]
    }

    /// Returns what a view counts as wherever work is reckoned: its sizes, each times its weight.
    #[tactic(auto, unfolding(crate::specs::Sizes::sizes_of))]
    pub fn size(&self, view: usize) -> Size
        requires { view < length self.now }
        ensures value { result ≡ sizes_of self.now view }
        ensures light { IsLight result }
    {
        self.row(view).weighed()
    }
}
