// Bytes of the lent memory: layout (offsets and sizes), numbers (little-endian, at an offset), moves (rows moved and zeroed).
#![tactic(auto)]

pub mod layout;
pub mod moves;
pub mod numbers;
