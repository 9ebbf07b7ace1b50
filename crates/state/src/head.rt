// What is asked of the head's numbers.
ghost use Rattle.std.specs.Prelude.{◌≡◌};
ghost use Rattle.state.specs.Parts.{head_sound};

use memory::bounds::{MAX_ROWS, probation_bound};

// R is at most MAX_ROWS and at least max + Q, and the rows counted are there. The sum is formed only where max is at most R.
#[tactic(auto, unfolding(crate::specs::Parts::head_sound))]
pub fn head_is_sound(rows: u64, max: u64, count: u64) -> bool
    ensures { result ≡ head_sound rows max count }
{
    if MAX_ROWS < rows {
        return false;
    }
    if rows < max {
        return false;
    }
    let q = probation_bound(max);
    (max + q <= rows) & (count <= rows)
}
