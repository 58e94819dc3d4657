//! Tests of the whole program by its public calls, over readers and writers that fail, and with a watch.
#![tactic(auto)]

#[cfg(test)]
mod given;
#[cfg(test)]
mod lengths;
#[cfg(test)]
mod live;
#[cfg(test)]
mod runs;
#[cfg(test)]
mod watched;
