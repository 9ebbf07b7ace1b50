// Whole rows: values (an address, an element, a path, written), row (a row by value, and its bytes), insert, exchange (one row goes in for
// another), saved (a row's bytes kept, and put back).
#![tactic(auto)]

pub mod exchange;
pub mod insert;
pub mod row;
pub mod saved;
pub mod values;
