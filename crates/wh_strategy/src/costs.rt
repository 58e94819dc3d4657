//! What a row costs, by which the work of strategies is weighed.

ghost use Rattle.std.specs.Prelude.{◌≡◌, ◌≤◌, ◌↔◌, IsSome, IfSome};

/// The least and the most that a cost may be.
const LEAST: u64 = 1;

const MOST: u64 = 1_000_000;

/// What a row costs that a Comp reads or an Inst writes, each 1 to 1,000,000.
#[derive(Debug, Clone, Copy, PartialEq, Eq)]
pub struct Costs {
    /// The cost of a row that a Comp reads.
    pub comp: u64,
    /// The cost of a row that an Inst writes.
    pub inst: u64,
    ghost comp_least: { 1 ≤ comp },
    ghost comp_most: { comp ≤ 1000000 },
    ghost inst_least: { 1 ≤ inst },
    ghost inst_most: { inst ≤ 1000000 },
}

impl Costs {
    /// Takes what a row costs. `None` where a cost is not 1 to 1,000,000.
    pub fn new(comp: u64, inst: u64) -> Option<Costs>
        ensures within { IsSome result ↔ ((1 ≤ comp) × (comp ≤ 1000000) × (1 ≤ inst) × (inst ≤ 1000000)) }
        ensures comp { IfSome result (λ c. c.comp ≡ comp) }
        ensures inst { IfSome result (λ c. c.inst ≡ inst) }
    {
        if LEAST <= comp && comp <= MOST && LEAST <= inst && inst <= MOST {
            Some(Costs { comp, inst })
        } else {
            None
        }
    }
}
