//! Tests of the commands of a warehouse that stays, by public calls.
#![tactic(auto)]

#[cfg(test)]
mod later;
#[cfg(test)]
mod lines;
#[cfg(test)]
mod opening;
#[cfg(test)]
mod reading;
