// The fields of a cohort file: tags, lengths, order, limits.
#![tactic(auto)]

pub mod heads;
pub mod order;
pub mod tags;
