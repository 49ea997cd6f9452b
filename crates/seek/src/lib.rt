// The search for the best set, over any scores and any clashes of results.
#![tactic(auto)]

pub mod search;
