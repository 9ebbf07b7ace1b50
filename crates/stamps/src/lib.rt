// Stamps: whether a row's is stale, new ones drawn, the lowest of a place found, and the walk that seeks a victim.
#![tactic(auto)]

pub mod lowest;
pub mod row;
pub mod walk;
