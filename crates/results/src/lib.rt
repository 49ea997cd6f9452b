// A student's results by position: what is read of each, which are usable and show English, and what is in their slots.
#![tactic(auto)]

pub mod counting;
pub mod reading;
pub mod scoring;
