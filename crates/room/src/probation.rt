// Room in probation.
ghost use Rattle.std.specs.Prelude.{◌≡◌, true, ◌+◌, ◌*◌, ◌≤◌, ◌<◌, length};
ghost use Rattle.rules.specs.Rows.{total};
ghost use Rattle.rules.specs.Sound.{sound};
ghost use Rattle.rules.specs.Room.{probation_visits, make_probation_room};
ghost use Rattle.rules.specs.Memory.{capacity, view_rows};
ghost use Rattle.rules.specs.Layout.{head_size, number_limit, row_size};
ghost use Rattle.stamps.specs.Walked.{walk_from};
ghost use Rattle.room.specs.Rooms.{without_victim, Leaves};

use crate::victims::Victim;
use memory::bounds::probation_bound;
use memory::codes::PROBATION;
use memory::row::row_at;
use stamps::lowest::lowest_stamp;
use stamps::row::{is_stale, restamp};

// Room in probation: the victim, left where it is, and the keys taken up.
#[derive(Clone, Copy)]
pub struct ProbationRoom {
    pub victim: Option<Victim>,
    pub examined: u64,
}

// Where probation rows ≥ Q the lowest stamp is taken up, and restamped if stale. The first that is not is the victim, and the only one,
// since a sound state has at most Q; it is left for the row that takes its place.
#[tactic(auto, using(crate::proofs::ProbationVictims::evict_ends, crate::proofs::ProbationVictims::visit_left))]
pub fn make_probation_room(state: &mut [u8], n: usize) -> ProbationRoom
    requires { (head_size + n * row_size ≤ length state.old) × (sound (capacity state.old) (view_rows n state.old) ≡ true) × ((view_rows n state.old).seq + total probation_visits (view_rows n state.old).rows < number_limit) }
    ensures { (walk_from (without_victim result.victim (view_rows n state.new)) result.examined ≡ make_probation_room (view_rows n state.old)) × Leaves result.victim (view_rows n state.old).rows (view_rows n state.new).rows }
{
    let bound = probation_bound(memory::head::max_entries(state));
    let lowest = lowest_stamp(state, n, PROBATION);
    let count = lowest.count;
    if count < bound {
        return ProbationRoom {
            victim: None,
            examined: 0,
        };
    }
    let mut next = lowest.row;
    let mut examined: u64 = 0;
    loop {
        match next {
            // Not reached, since Q is at least 1.
            None => {
                return ProbationRoom {
                    victim: None,
                    examined,
                };
            }
            Some(i) => {
                examined += 1;
                if is_stale(&row_at(state, n, i)) {
                    restamp(state, n, i);
                    let again = lowest_stamp(state, n, PROBATION);
                    next = again.row;
                } else {
                    let victim = Victim {
                        at: i,
                        stored: memory::head::stored_weight(state),
                    };
                    return ProbationRoom {
                        victim: Some(victim),
                        examined,
                    };
                }
            }
        }
    }
}
