// The reply of a lookup that hands back a part of the lent memory.
ghost use Rattle.std.specs.Prelude.{◌≡◌};
ghost use Rattle.replies.specs.Part.{part_reply};

use raw::layout::ELEMENT;
use types::reply::{Reply, says};

// A lookup found the key if its part has an element, of ELEMENT bytes each.
#[tactic(auto, using(std::proofs::lemmas::Bool::Decides::nat_tests), unfolding(crate::specs::Part::part_reply))]
pub fn part_reply(bytes: usize) -> Reply
    ensures { result ≡ part_reply bytes }
{
    if bytes == 0 {
        return says(0, 0, 0, 0, 0);
    }
    says(1, (bytes / ELEMENT) as u64, 0, 0, 0)
}
