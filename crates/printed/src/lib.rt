// What is printed for a cohort file, and what the report promises of it: definitions, theorems and values, and no function.
#![tactic(auto)]
