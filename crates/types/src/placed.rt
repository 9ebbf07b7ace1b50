// What a hint brings, and what became of it.
ghost use Rattle.std.specs.Prelude.{◌≡◌};
ghost use Rattle.types.specs.Values.{covers, outcome_code, segment_code};

// What the writer of a hint can pay, in units of weight.
#[derive(Clone, Copy)]
pub enum Funding {
    // Covers charges up to this many.
    Upto(u64),
    // Covers every charge.
    Uncharged,
}

// The part of the cache that a key stands in.
#[derive(Clone, Copy)]
pub enum Segment {
    Main,
    Probation,
}

#[derive(Clone, Copy)]
pub enum HintOutcome {
    // No entry was held; the hint was stored.
    Inserted,
    // The hint replaced a different path.
    Changed,
    // The hint carried the path that was held.
    Unchanged,
    // The hint was not stored.
    Rejected,
}

#[derive(Clone, Copy)]
pub struct Placed {
    pub outcome: HintOutcome,
    // What the write added to the main segment, and its writer pays.
    pub added_weight: u64,
    // Where the key then stands.
    pub segment: Segment,
    // The funding did not cover the write.
    pub unfunded: bool,
    // The keys that eviction took up during the call.
    pub examined: u64,
}

// A verified insert that was done.
#[derive(Clone, Copy)]
pub struct VerifiedInsert {
    pub weight: u64,
    pub examined: u64,
}

impl Funding {
    #[tactic(auto, unfolding(crate::specs::Values::covers))]
    pub fn covers(self, weight: u64) -> bool
        ensures { result ≡ covers self weight }
    {
        match self {
            Funding::Upto(n) => weight <= n,
            Funding::Uncharged => true,
        }
    }
}

// The kinds as numbers, in the order above.
impl From<Segment> for u64 {
    ghost from_gives = { λ segment code. code ≡ segment_code segment };

    #[tactic(auto, unfolding(crate::specs::Values::segment_code))]
    fn from(segment: Segment) -> u64 {
        segment as u64
    }
}

impl From<HintOutcome> for u64 {
    ghost from_gives = { λ outcome code. code ≡ outcome_code outcome };

    #[tactic(auto, unfolding(crate::specs::Values::outcome_code))]
    fn from(outcome: HintOutcome) -> u64 {
        outcome as u64
    }
}
