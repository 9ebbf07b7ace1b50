// Numbers 2 and 3 of a call that takes a path; in proofs/ the laws that every call uses: of a sound memory, and of a refused call.
#![tactic(auto)]

pub mod write;
