// Verified inserts (01, Placement): number 4, the row written where it stands or filed anew, and the two calls.
#![tactic(auto)]

pub mod calls;
mod in_place;
mod insert;
mod no_place;
