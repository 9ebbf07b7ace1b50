// Seeking a victim.
ghost use Rattle.std.specs.Prelude.{◌≡◌};
ghost use Rattle.rules.specs.Records.{by_use};
ghost use Rattle.rules.specs.Rows.{lowest_stamp};
ghost use Rattle.rules.specs.Room.{visits_left, return_lapsed, next_victim};
ghost use Rattle.rules.specs.Memory.{view_rows};
ghost use Rattle.stamps.specs.Walked.{walk_from, sought_of, Walkable};

use crate::lowest::{LowestOfMain, lowest_of_main, lowest_stamp};
use crate::row::{is_stale, park, restamp};
use entries::times::is_verified;
use memory::codes::BY_USE;
use memory::row::row_at;

// How many parked rows returned, and the row that the walk takes up next, if any.
#[derive(Clone, Copy)]
struct Returned {
    rows: u64,
    next: Option<usize>,
}

// The victim that a walk yields, and the keys that it took up.
#[derive(Clone, Copy)]
pub struct Victim {
    pub found: Option<usize>,
    pub examined: u64,
}

// Parked rows with until < now return to ByUse, lowest stamp first. `lowest` is of the rows as they are; the pass that finds none lapsed
// has also found the lowest ByUse stamp.
#[tactic(auto, using(crate::proofs::WalkLaws::returning))]
fn return_lapsed(state: &mut [u8], n: usize, time: u64, lowest: LowestOfMain) -> Returned
    requires { Walkable n time lowest state.old }
    ensures walked { walk_from (view_rows n state.new) result.rows ≡ return_lapsed (visits_left time (walk_from (view_rows n state.old) 0)) time (walk_from (view_rows n state.old) 0) }
    ensures next { result.next ≡ lowest_stamp by_use (view_rows n state.new).rows }
{
    let mut rows: u64 = 0;
    let mut parked = lowest.parked;
    let mut next = lowest.by_use;
    loop {
        match parked {
            None => return Returned { rows, next },
            Some(i) => {
                if time <= row_at(state, n, i).stamp_first() {
                    return Returned { rows, next };
                }
                restamp(state, n, i);
                rows += 1;
                let again = lowest_of_main(state, n);
                parked = again.parked;
                next = again.by_use;
            }
        }
    }
}

// The walk over ByUse ends at the first entry that is neither restamped nor parked, and yields it. `lowest` is of the rows as they are;
// each row that is taken up but not yielded costs a pass over the rows.
#[tactic(auto, using(crate::proofs::WalkLaws::sought_on))]
pub fn next_victim(state: &mut [u8], n: usize, time: u64, lowest: LowestOfMain) -> Victim
    requires { Walkable n time lowest state.old }
    ensures { sought_of result (view_rows n state.new) ≡ next_victim time (walk_from (view_rows n state.old) 0) }
{
    let returned = return_lapsed(state, n, time, lowest);
    let mut examined = returned.rows;
    let mut next = returned.next;
    let found = loop {
        match next {
            None => break None,
            Some(i) => {
                examined += 1;
                let row = row_at(state, n, i);
                if is_stale(&row) {
                    restamp(state, n, i);
                    let again = lowest_stamp(state, n, BY_USE);
                    next = again.row;
                } else if is_verified(&row, time) {
                    park(state, n, i);
                    let again = lowest_stamp(state, n, BY_USE);
                    next = again.row;
                } else {
                    break Some(i);
                }
            }
        }
    };
    Victim { found, examined }
}
