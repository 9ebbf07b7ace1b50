// Rows by key: compared where they stand; the row of a key searched by guesses, then by halves.
#![tactic(auto)]

pub mod keys;
