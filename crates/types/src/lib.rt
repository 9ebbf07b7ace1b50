// Addresses, path elements and paths; what calls take and answer (the original's node_addr.rs, coord.rs, entry.rs, mod.rs); what a
// sender of commands has.
#![tactic(auto)]

pub mod coord;
pub mod entry;
pub mod node_addr;
pub mod placed;
pub mod refusal;
pub mod reply;
pub mod sender;
pub mod stats;
