//! Names what the program ends with where its output does not fail.

ghost use Rattle.std.specs.Prelude.{◌≡◌, ◌<◌};
ghost use Rattle.whview.specs.Status.{status_number};

/// The outcomes of an answer.
#[derive(Clone, Copy)]
pub enum Status {
    /// The answer is what was asked for, or help.
    Done,
    /// A strategy breaks a rule, a plan is rejected, or a night is refused.
    Negative,
    /// The words are no command line of this program.
    Words,
    /// The input has a fault.
    Fault,
    /// Memory was refused, or a budget is spent.
    Limit,
}

impl Status {
    /// Returns the status of the process where the answer goes out, 0 to 4.
    pub fn number(self) -> u8
        ensures number { result ≡ status_number self }
        ensures small { result < 5 }
    {
        match self {
            Status::Done => 0,
            Status::Negative => 1,
            Status::Words => 2,
            Status::Fault => 3,
            Status::Limit => 4,
        }
    }
}
