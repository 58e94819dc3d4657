//! Tells a caller when a job is drawn and when it is done.

/// A listener that is called round each job of a wave, with the job's number in its wave, from 0.
pub trait Gate {
    /// Is called when the job was drawn, before it is computed.
    fn taken(&self, job: usize);

    /// Is called when the job is done.
    fn finished(&self, job: usize);
}

/// A gate that does nothing.
pub struct NoGate;

impl Gate for NoGate {
    fn taken(&self, _job: usize) {}

    fn finished(&self, _job: usize) {}
}
