// The calls for gateways in C and Rust (include/coordcache.h): numbers, and bytes by reference; no struct crosses. Each call returns
// the number of its refusal, 0 if done, and all but fresh write 01's five values.
#![tactic(auto)]

pub mod checked;
pub mod packing;
pub mod unchecked;
