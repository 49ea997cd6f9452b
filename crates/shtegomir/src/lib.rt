// The entries that C calls: slices and numbers in, a C struct out. The header is include/shtegomir.h.
#![tactic(auto)]

pub mod best;
pub mod participation;
pub mod placing;
pub mod ranking;
pub mod scoring;
pub mod text;
