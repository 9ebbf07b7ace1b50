// Rows filed in the order of keys: file (in a free row, over a victim, or back as it was), in_room (once room was sought), refile (updated
// and stamped anew where it stands).
#![tactic(auto)]

pub mod file;
pub mod in_room;
pub mod refile;
