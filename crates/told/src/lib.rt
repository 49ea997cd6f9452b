// What C is told of an answer: its outcome in one struct, laid out as the header has it. The entries that C calls are in shtegomir.
#![tactic(auto)]

pub mod best;
pub mod participation;
pub mod placing;
pub mod telling;
pub mod text;
