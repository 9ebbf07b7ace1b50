// The stamp of one row.
ghost use Rattle.std.specs.Prelude.{◌≡◌, cond, ◌+◌, ◌*◌, ◌≤◌, ◌<◌, ltb, length};
ghost use Rattle.rules.specs.Records.{probation, by_use};
ghost use Rattle.rules.specs.Room.{stale, stamp, restamp, park};
ghost use Rattle.rules.specs.Memory.{view_rows};
ghost use Rattle.rules.specs.Layout.{head_size, row_size};
ghost use Rattle.memory.specs.Edits.{stamped_as};
ghost use Rattle.types.specs.Values.{largest_number};

use memory::codes::{BY_USE, PARKED, PROBATION};
use memory::row::{Row, row_at};

// first ≠ last_used
#[tactic(auto, unfolding(rules::specs::Room::stale))]
pub fn is_stale(row: &Row<'_>) -> bool
    ensures { result ≡ stale row.now }
{
    row.stamp_first() != row.last_used()
}

// Row i gets a place and a new stamp.
#[tactic(auto, using(crate::proofs::StampedRows::drawn))]
pub fn draw_stamp(state: &mut [u8], n: usize, i: usize, place: u8, first: u64)
    requires { (i < n) × (head_size + n * row_size ≤ length state.old) × ((view_rows n state.old).seq < largest_number) }
    ensures { view_rows n state.new ≡ stamp (stamped_as place first) i (view_rows n state.old) }
{
    let seq = memory::head::next_key(state, n);
    memory::row::set_stamp(state, n, i, place, first, seq);
}

// In main a filed row's place becomes ByUse.
#[tactic(auto, using(std::proofs::lemmas::Bool::Decides::nat_tests))]
fn filed_place(place: u8) -> u8
    ensures { result ≡ cond (ltb place probation) by_use place }
{
    if place < PROBATION { BY_USE } else { place }
}

// Row i is stamped with last_used.
#[tactic(auto, using(crate::proofs::StampedRows::restamped))]
pub fn restamp(state: &mut [u8], n: usize, i: usize)
    requires { (i < n) × (head_size + n * row_size ≤ length state.old) × ((view_rows n state.old).seq < largest_number) }
    ensures { view_rows n state.new ≡ restamp i (view_rows n state.old) }
{
    let row = row_at(state, n, i);
    let place = filed_place(row.place());
    let used = row.last_used();
    draw_stamp(state, n, i, place, used);
}

// Row i is parked, stamped with verified_until.
#[tactic(auto, using(crate::proofs::StampedRows::parked_anew))]
pub(crate) fn park(state: &mut [u8], n: usize, i: usize)
    requires { (i < n) × (head_size + n * row_size ≤ length state.old) × ((view_rows n state.old).seq < largest_number) }
    ensures { view_rows n state.new ≡ park i (view_rows n state.old) }
{
    let until = row_at(state, n, i).verified_until();
    draw_stamp(state, n, i, PARKED, until);
}
