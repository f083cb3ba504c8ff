// A file's mirrors (paper 01, "The recovery record"): what a report says of them, the mirror list that a file is registered with, and their places.
#![tactic(auto)]

pub mod blame;
pub mod enrol;
pub mod mirrors;
pub mod source;
pub mod totals;
