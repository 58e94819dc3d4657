//! The six comparisons of two numbers, of which tests are made.
ghost use Rattle.std.specs.Prelude.{◌≡◌};
ghost use Rattle.wh_formula.specs.Comparison.{compares, compares_values};

/// How a test compares its left value with its right one.
#[derive(Clone, Copy, Debug, PartialEq, Eq)]
pub enum Comparison {
    /// `=`
    Equal,
    /// `<>`
    NotEqual,
    /// `<`
    Less,
    /// `<=`
    LessOrEqual,
    /// `>`
    Greater,
    /// `>=`
    GreaterOrEqual,
}

impl Comparison {
    /// Returns whether the left number stands in this relation to the right one.
    pub fn compares(self, left: i64, right: i64) -> bool
        ensures { result ≡ compares self left right }
    {
        match self {
            Comparison::Equal => left == right,
            Comparison::NotEqual => left != right,
            Comparison::Less => left < right,
            Comparison::LessOrEqual => left <= right,
            Comparison::Greater => left > right,
            Comparison::GreaterOrEqual => left >= right,
        }
    }

    // A missing value compares with nothing.
    pub(crate) fn compares_values(self, left: Option<i64>, right: Option<i64>) -> bool
        ensures { result ≡ compares_values self left right }
    {
        match (left, right) {
            (Some(left), Some(right)) => self.compares(left, right),
            _ => false,
        }
    }
}
