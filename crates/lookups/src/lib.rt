// The calls that name one key and need no room, each public and unchecked: get; touch, with get_and_touch; remove; demote; path_mtu
// (clear_path_mtu).
#![tactic(auto, using(crate::proofs::KeyRows::key_row))]

pub mod demote;
pub mod get;
pub mod path_mtu;
pub mod remove;
pub mod touch;
