// Number 4: whether main has a place for a verified insert. It is known before anything is written.
ghost use Rattle.std.specs.Prelude.{◌≡◌, true};
ghost use Rattle.rules.specs.Records.{main_limit};
ghost use Rattle.rules.specs.Sound.{sound};
ghost use Rattle.rules.specs.Refusals.{key_in_main, no_place_for};
ghost use Rattle.rules.specs.Memory.{capacity, view_rows};
ghost use Rattle.search.specs.ByKey.{searched};

use memory::bounds::probation_bound;
use memory::codes::PROBATION;
use memory::head;
use memory::row::row_at;
use room::closed_form::{main_len, room_can_be_made};
use types::coord::Path;
use types::node_addr::NodeAddr;

// `at` is where the key's row stands.
#[tactic(auto, using(room::proofs::RoomToFile::laid_out, crate::proofs::NoPlace::row_inside, crate::proofs::NoPlace::held_in_main, crate::proofs::NoPlace::absent_in_main))]
fn key_in_main(state: &[u8], n: usize, at: Result<usize, usize>, key: NodeAddr) -> bool
    requires { (sound (capacity state.now) (view_rows n state.now) ≡ true) × (at ≡ searched key (view_rows n state.now).rows) }
    ensures { result ≡ key_in_main key (view_rows n state.now) }
{
    match at {
        Ok(i) => row_at(state, n, i).place() < PROBATION,
        Err(_) => false,
    }
}

// M.
#[tactic(auto, using(room::proofs::RoomToFile::laid_out, room::proofs::RoomToFile::shown, memory::proofs::Fields::same_head))]
fn main_bound(state: &[u8], n: usize) -> u64
    requires { sound (capacity state.now) (view_rows n state.now) ≡ true }
    ensures { result ≡ main_limit (capacity state.now) (view_rows n state.now) }
{
    let rows = head::rows_that_fit(state) as u64;
    rows - probation_bound(head::max_entries(state))
}

// The key's own row, where it is not in main, makes no difference to the room, so it need not leave first. Main rows are counted only
// where they may be M.
#[tactic(auto, using(memory::proofs::RowLaws::view_length, stamps::proofs::RowTotals::count_few, room::proofs::RoomToFile::laid_out, crate::proofs::NoPlace::held_place, crate::proofs::NoPlace::free_place))]
pub fn no_place_for(
    state: &[u8],
    n: usize,
    at: Result<usize, usize>,
    key: NodeAddr,
    path: Path,
    time: u64,
) -> bool
    requires { (sound (capacity state.now) (view_rows n state.now) ≡ true) × (at ≡ searched key (view_rows n state.now).rows) }
    ensures { result ≡ no_place_for (capacity state.now) (view_rows n state.now) (record { key = key; path = path; time = time }) }
{
    if key_in_main(state, n, at, key) {
        return false;
    }
    let bound = main_bound(state, n);
    let rows = n as u64;
    if rows < bound {
        return false;
    }
    if main_len(state, n) < bound {
        return false;
    }
    !room_can_be_made(state, n, path.weight(), time)
}
