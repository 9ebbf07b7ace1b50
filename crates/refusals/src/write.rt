// The refusals of a call that takes a path, and the last seq at which stamps are drawn.
ghost use Rattle.std.specs.Prelude.{◌≡◌, ◌≤◌, length};
ghost use Rattle.rules.specs.Memory.{view};
ghost use Rattle.rules.specs.Layout.{head_size};
ghost use Rattle.refusals.specs.Writes.{write_refusal};

use types::coord::{PLACES, Path};
use types::refusal::Refusal;
use types::reply::LARGEST_NUMBER;

// Every call draws fewer stamps.
const STAMPS_OF_CALL: u64 = 4096;

// The largest seq at which stamps are drawn.
pub const LAST_SEQ: u64 = LARGEST_NUMBER - STAMPS_OF_CALL;

// Why a call that takes a path and draws stamps is refused before any row is read: for its path, else for its stamps.
#[tactic(auto, using(crate::proofs::WriteRefusals::bad_length, crate::proofs::SoundCalls::shown_seq, crate::proofs::WriteRefusals::stamps_left, crate::proofs::WriteRefusals::stamps_spent), unfolding(rules::specs::Refusals::bad_path))]
pub fn write_refusal(state: &[u8], path: Path) -> Result<(), Refusal>
    requires { head_size ≤ length state.now }
    ensures { result ≡ write_refusal path (view state.now) }
{
    let len = path.len;
    if (len == 0) | (PLACES < len) {
        return Err(Refusal::PathLength);
    }
    if LAST_SEQ < memory::head::seq(state) {
        return Err(Refusal::StampsSpent);
    }
    Ok(())
}
