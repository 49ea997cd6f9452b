// A student's results against each other: which come again, which are kept, which may not stand in one set.
#![tactic(auto)]

pub mod masks;
pub mod pairs;
