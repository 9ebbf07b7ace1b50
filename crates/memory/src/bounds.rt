// The bounds of a state: R is at most MAX_ROWS, and Q is what probation holds.
ghost use Rattle.std.specs.Prelude.{◌≡◌};
ghost use Rattle.rules.specs.Records.{probation_bound};

// R is at most this.
pub const MAX_ROWS: u64 = 1024;

// Q is this part of max.
const PROBATION_DIVISOR: u64 = 32;

// Q.
pub fn probation_bound(max: u64) -> u64
    ensures { result ≡ probation_bound max }
{
    (max / PROBATION_DIVISOR).max(1)
}
