#![tactic(auto)]

// The office's example file and its listing, as one theorem.
