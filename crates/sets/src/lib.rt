// One student: the rules in order, admissible sets, and what is promised of the best of them. Definitions, laws and values, and the set of which they
// speak; the code that keeps the promise is the crate bestset.
#![tactic(auto)]

// The aggregate in hundredths and the set, bit i for result i.
#[derive(Clone, Copy, Default)]
pub struct BestSet {
    pub aggregate: u32,
    pub set: u16,
}
