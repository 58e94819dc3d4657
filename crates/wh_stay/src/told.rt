//! Names what is told of a night whose parts came.

ghost use Rattle.std.specs.Prelude.{◌≡◌, ◌≢◌, ◌↔◌, IsTrue};

use wh_core::{Cause, Reply};
use wh_load::LoadFault;
use wh_strategy::Rule;

/// What is told of a night whose parts came.
#[derive(Drop)]
pub enum NightTold {
    /// The first fault of the parts. Want of memory is told as a reply.
    Fault(LoadFault),
    /// The strategy is not correct.
    Broken {
        /// The first rule that it breaks.
        rule: Rule,
        /// The first place of the list that breaks it, from 1.
        place: usize,
    },
    /// What the machine replied to the night's Begin. Memory that was refused before it is told as it would tell it.
    Replied(Reply),
}

/// Tells whether memory was refused.
fn is_memory(fault: &LoadFault) -> bool
    ensures { IsTrue result ↔ (fault.now ≡ LoadFault.Memory) }
{
    matches!(fault, LoadFault::Memory)
}

impl NightTold {
    /// Returns what is told of parts with this fault.
    pub(crate) fn of(fault: LoadFault) -> NightTold
        ensures memory { fault ≡ LoadFault.Memory → result ≡ NightTold.Replied (Reply.Refused Cause.Memory) }
        ensures fault { fault ≢ LoadFault.Memory → result ≡ NightTold.Fault fault }
    {
        if is_memory(&fault) {
            return NightTold::Replied(Reply::Refused(Cause::Memory));
        }
        NightTold::Fault(fault)
    }

    /// Tells whether the night has begun.
    pub fn has_begun(&self) -> bool
        ensures { IsTrue result ↔ (self.now ≡ NightTold.Replied Reply.Begun) }
    {
        matches!(self, NightTold::Replied(Reply::Begun))
    }
}
