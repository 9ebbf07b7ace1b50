// The lent memory as a head and rows: head (its five numbers, and R), row (a row where it stands, read and set; the rows one after
// another), rows (rows taken out, copied, zeroed), codes (places, sources, MTU marks), bounds (the limit of R, and Q). Contracts are
// equations on the view of the memory, but for `copy_row`'s, which is on its bytes. The crates above read and set the fields of a
// standing row by these functions; keys, paths and whole rows they read and write as bytes too: `rows`, `entries::addr`,
// `entries::path`, `search::keys`, `state::key`.
#![tactic(auto)]

pub mod bounds;
pub mod codes;
pub mod head;
pub mod row;
pub mod rows;
