// First scaled scores of a subject, from how many students have each raw result: definitions, theorems and values; the code that keeps the promise
// is the crate initial.
#![tactic(auto)]
