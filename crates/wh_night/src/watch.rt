//! Tells a caller of a night that readers read beside.

use crate::gate::Gate;
use wh_desk::Watch;

/// A gate that is also a watch, and does nothing.
pub struct NoWatch;

impl Gate for NoWatch {
    fn taken(&self, _job: usize) {}

    fn finished(&self, _job: usize) {}
}

impl Watch for NoWatch {
    fn entered(&self, _reader: usize, _version: u64) {}

    fn left(&self, _reader: usize) {}
}
