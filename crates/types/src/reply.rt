// A command's reply: the number of its refusal, or 0, and five numbers.
ghost use Rattle.std.specs.Prelude.{◌≡◌};
ghost use Rattle.types.specs.Values.{refusal_code, says, refuses, tallied};

use crate::refusal::Refusal;

// The largest number of 64 bits.
pub const LARGEST_NUMBER: u64 = u64::MAX;

#[derive(Clone, Copy)]
pub struct Reply {
    pub refusal: u8,
    pub values: [u64; 5],
}

// A command that was done.
#[tactic(auto, unfolding(crate::specs::Values::says))]
pub fn says(a: u64, b: u64, c: u64, d: u64, e: u64) -> Reply
    ensures { result ≡ says a b c d e }
{
    Reply {
        refusal: 0,
        values: [a, b, c, d, e],
    }
}

// A refused command has nothing to report but why: a number, which may be any.
#[tactic(auto, unfolding(crate::specs::Values::refuses))]
pub fn refused(n: u8) -> Reply
    ensures { result ≡ refuses n }
{
    Reply {
        refusal: n,
        values: [0u64; 5],
    }
}

impl From<Refusal> for Reply {
    ghost from_gives = { λ refusal reply. reply ≡ refuses (refusal_code refusal) };

    fn from(refusal: Refusal) -> Reply {
        refused(u8::from(refusal))
    }
}

// A run's tally: commands done, and commands refused. Each stops at the largest number.
#[derive(Clone, Copy)]
pub struct Tally {
    pub done: u64,
    pub refused: u64,
}

impl Tally {
    // The tally after a command with this refusal, or 0.
    #[tactic(auto, unfolding(crate::specs::Values::tallied))]
    pub fn counted(self, refusal: u8) -> Tally
        ensures { result ≡ tallied self refusal }
    {
        if refusal == 0 {
            return Tally {
                done: self.done.saturating_add(1),
                refused: self.refused,
            };
        }
        Tally {
            done: self.done,
            refused: self.refused.saturating_add(1),
        }
    }
}
