//! Tests of a warehouse that stays, by public calls.
#![tactic(auto)]

#[cfg(test)]
mod given;
#[cfg(test)]
mod nights;
#[cfg(test)]
mod talks;
#[cfg(test)]
mod told;
