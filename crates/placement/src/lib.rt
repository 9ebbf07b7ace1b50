// Hints placed by 01's steps (Placement): a new key, a held key, the hint itself, and the four calls.
#![tactic(auto)]

pub mod calls;
mod held_key;
mod hint;
mod new_key;
mod operands;
