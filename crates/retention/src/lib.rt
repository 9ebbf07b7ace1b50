// The rows that match leave, the others are kept together (retain_entries).
#![tactic(auto)]

pub mod rows;
