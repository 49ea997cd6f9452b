// What a cohort file is, what it holds and what its reader promises: definitions, theorems and values, and no function.
#![tactic(auto)]

// What is told of a file: the year, the numbers of subjects and students, Y and r.
#[derive(Clone, Copy)]
pub struct Summary {
    pub year: u16,
    pub subjects: usize,
    pub students: usize,
    pub population: u32,
    pub rate: u32,
}
