// 01's number and five values: answer (for each case of what a call returns), part (of a lookup, from the part that it hands back); line
// (a reply as text).
#![tactic(auto)]

pub mod answer;
pub mod line;
pub mod part;
