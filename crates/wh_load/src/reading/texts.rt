//! Holds the texts of the parts that commands read, which the bundle lends where it can.

use std::borrow::CowSlice;

/// The texts of views and their sizes.
#[derive(Drop)]
pub struct MeasuredTexts<'a> {
    pub catalogue: CowSlice<'a, u8>,
    pub sizes: CowSlice<'a, u8>,
}

/// The texts of views, their sizes and a strategy.
#[derive(Drop)]
pub struct CheckTexts<'a> {
    pub measured: MeasuredTexts<'a>,
    pub strategy: CowSlice<'a, u8>,
}

/// The texts of views, their sizes and a plan.
#[derive(Drop)]
pub struct ClaimTexts<'a> {
    pub measured: MeasuredTexts<'a>,
    pub plan: CowSlice<'a, u8>,
}

/// The texts of the strategies of nights, in order, and that of their schedule.
#[derive(Drop)]
pub struct ReplayTexts<'a> {
    pub strategies: Vec<CowSlice<'a, u8>>,
    pub schedule: CowSlice<'a, u8>,
}
