// What follows from the definitions of `meaning`, proved once: the walk over a file's blocks, what an accepted file is, bounds,
// and demand 3, which stands in specs/. There is no code here; the crates above cite the theorems.

#![tactic(auto)]
