// Sets of variables.

// The most variables that there can be; they are numbered from 0.
pub const MOST_VARIABLES: usize = 64;

// A set of variables, by their numbers.
pub type VarSet = word_sets::WordSet;
