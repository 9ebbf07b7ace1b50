// Room: victims (in main: chosen, and gone, put back or left for the row that takes their place), probation, closed_form (main counted and
// weighed, and whether room can be made).
#![tactic(auto)]

pub mod closed_form;
pub mod probation;
pub mod victims;
