// Whether a lent memory is a sound state: check asks the head and then passes over the rows; head, row (a row by itself), key (keys that
// rise) and pass are its parts. fresh makes one.
#![tactic(auto)]

pub mod check;
pub mod fresh;
mod head;
mod key;
mod pass;
mod row;
