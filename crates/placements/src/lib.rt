// The placements of students in bands, the best of them, and what placing promises: by direct count, and over the tally with their ranks.
#![tactic(auto)]
