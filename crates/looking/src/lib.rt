// The rules at a pair of cells as tests of the numbers that they read, and the search for the lowest rule, a and b.
#![tactic(auto)]

pub mod search;
