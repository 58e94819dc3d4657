//! The names of the rules, by which a refusal says what is wrong.

ghost use Rattle.std.specs.Prelude.{◌≡◌};
ghost use Rattle.wh_strategy.specs.Rules.{number_of};

/// The rules of a strategy, in the order in which a check looks for them.
#[derive(Debug, Clone, Copy, PartialEq, Eq)]
pub enum Rule {
    /// For each derived view V and each view U that V is over, exactly one `Comp(V, Y)` has U in Y, and there is no other Comp.
    S1,
    /// Each view has exactly one Inst.
    S2,
    /// `Comp(V, Y)` stands before `Inst(U)` for each U in Y.
    S3,
    /// If `Comp(V, Y)` stands before `Comp(V, Z)`, then `Inst(U)` stands before `Comp(V, Z)` for each U in Y.
    S4,
    /// Each Comp of V stands before `Inst(V)`.
    S5,
    /// If V is in Y, each Comp of V stands before `Comp(W, Y)`.
    S6,
}

impl Rule {
    /// Returns the rule's number: 1 for S1.
    pub fn number(self) -> u8
        ensures { result ≡ number_of self }
    {
        match self {
            Rule::S1 => 1,
            Rule::S2 => 2,
            Rule::S3 => 3,
            Rule::S4 => 4,
            Rule::S5 => 5,
            Rule::S6 => 6,
        }
    }
}
