// The lent score table: raw and scaled results, the slot lookup, its rows and the row filler.
#![tactic(auto)]

pub mod rows;
pub mod slots;
