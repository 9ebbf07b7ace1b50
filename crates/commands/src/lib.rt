// One command on a state: its bytes are read as a command by value, whose call is made and replied to; widths of operands by
// name.
#![tactic(auto)]

pub mod call;
pub mod command;
mod decode;
mod obey;
mod width;
