// An entry where it stands in a row, and by value (the original's entry.rs): addr and path (compared, handed out, copied), times (expired, verified; sums
// of times), entry (read), new_entry (made, updated, marked).
#![tactic(auto)]

pub mod addr;
pub mod entry;
pub mod new_entry;
pub mod path;
pub mod times;
