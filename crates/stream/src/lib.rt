// A run over a stream of commands, with replies as lines of text: run; stop, why it ended; the tally. In specs/ and proofs/ a run's
// definitions and laws.
#![tactic(auto)]

pub mod run;
pub mod stop;
mod tally;
