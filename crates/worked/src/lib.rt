#![tactic(auto)]

// The worked examples of the paper, as one theorem.
