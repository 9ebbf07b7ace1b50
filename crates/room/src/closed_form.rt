// Main counted and weighed: whether it has room, which room::victims and verification ask; and the closed form, whether room can be made,
// which is asked for number 4 alone.
ghost use Rattle.std.specs.Prelude.{◌≡◌, ◌&&◌, true, ◌+◌, ◌*◌, ◌≤◌, min, ltb, leb, length};
ghost use Rattle.rules.specs.Records.{weight_bound, max_rows};
ghost use Rattle.rules.specs.Rows.{main_count};
ghost use Rattle.rules.specs.Sound.{sound};
ghost use Rattle.rules.specs.Room.{verified_in_main, room_can_be_made};
ghost use Rattle.rules.specs.Memory.{capacity, view_rows};
ghost use Rattle.rules.specs.Layout.{head_size, row_size};

use entries::times::is_verified;
use memory::codes::PROBATION;
use memory::row::{Row, Rows, row_at};
use types::coord::ADDRS_PER_ENTRY;

// The rows of main. Counted down by hand: as a sum over the rows the compiler makes bytes of them side by side, which is slower.
#[tactic(auto, using(memory::proofs::RowLaws::view_length, stamps::proofs::RowTotals::counted_start, stamps::proofs::RowTotals::counted_turn, stamps::proofs::RowTotals::counted_end), unfolding(rules::specs::Rows::in_main))]
pub fn main_len(state: &[u8], n: usize) -> u64
    requires { head_size + n * row_size ≤ length state.now }
    ensures { result ≡ main_count (view_rows n state.now) }
{
    let mut count: u64 = 0;
    let mut i = n;
    while 0 < i {
        i -= 1;
        count += (row_at(state, n, i).place() < PROBATION) as u64;
    }
    count
}

// w, cut to B.
pub fn cut_to_bound(w: u64, max: u64) -> u64
    requires { max ≤ max_rows }
    ensures { result ≡ min w (weight_bound max) }
{
    w.min(ADDRS_PER_ENTRY * max)
}

// Neither count ≥ max_entries nor stored + w > B.
pub fn has_room(max: u64, count: u64, stored: u64, w: u64) -> bool
    requires { (max ≤ max_rows) × (stored ≤ max_rows * 256) × (w ≤ weight_bound max) }
    ensures { result ≡ ltb count max && leb (stored + w) (weight_bound max) }
{
    (count < max) & (stored + w <= ADDRS_PER_ENTRY * max)
}

#[tactic(auto, unfolding(rules::specs::Room::verified_in_main, rules::specs::Rows::in_main))]
fn is_verified_in_main(row: &Row<'_>, time: u64) -> bool
    ensures { result ≡ verified_in_main time row.now }
{
    (row.place() < PROBATION) & is_verified(row, time)
}

// The closed form, in one pass: what no walk at this time can take is counted and weighed.
#[tactic(auto, using(memory::proofs::RowLaws::view_length, crate::proofs::ClosedForm::most, crate::proofs::ClosedForm::bounds_read, crate::proofs::ClosedForm::weighed_start, crate::proofs::ClosedForm::weighed_small, crate::proofs::ClosedForm::weighed_end))]
pub fn room_can_be_made(state: &[u8], n: usize, w: u64, time: u64) -> bool
    requires { (head_size + n * row_size ≤ length state.now) × (sound (capacity state.now) (view_rows n state.now) ≡ true) }
    ensures { result ≡ room_can_be_made time w (view_rows n state.now) }
{
    let max = memory::head::max_entries(state);
    let cut = cut_to_bound(w, max);
    let mut count: u64 = 0;
    let mut weight: u64 = 0;
    for row in Rows::of(state, n) {
        if is_verified_in_main(&row, time) {
            count += 1;
            weight += row.weight() as u64;
        }
    }
    has_room(max, count, weight, cut)
}
