// Whole rows: taken out, copied down, zeroed; and a fresh memory.
ghost use Rattle.std.specs.Prelude.{◌≡◌, ◌+◌, ◌*◌, ◌-◌, ◌≤◌, ◌<◌, length, drop};
ghost use Rattle.std.proofs.lemmas.List.Edits.{sets};
ghost use Rattle.rules.specs.Rows.{in_main, weigh_rows, without_row, main_weight};
ghost use Rattle.rules.specs.Room.{take_out};
ghost use Rattle.rules.specs.Refusals.{fresh};
ghost use Rattle.rules.specs.Memory.{cut, view_rows};
ghost use Rattle.rules.specs.Layout.{head_size, row_size};
ghost use Rattle.memory.specs.Edits.{OnlyRows, shrunk};

use crate::codes::PROBATION;
use crate::{head, row};
use raw::layout::{HEAD, ROW};

// The first j of n rows stay; the others become zero.
#[tactic(auto, using(crate::proofs::RowLaws::zeroed_view))]
pub fn shrink(state: &mut [u8], n: usize, j: usize, stored: u64)
    requires { (j ≤ n) × (head_size + n * row_size ≤ length state.old) }
    ensures { view_rows j state.new ≡ shrunk n j stored state.old }
{
    raw::moves::fill_zero(state, HEAD + j * ROW, HEAD + n * ROW);
    head::set_stored_weight(state, j, stored);
    head::set_row_count(state, j, j as u64);
}

// The rows behind row i move down by one.
fn close_gap(state: &mut [u8], n: usize, i: usize)
    requires { (i < n) × (head_size + n * row_size ≤ length state.old) }
    ensures { OnlyRows n (n - 1) (without_row i (view_rows n state.old).rows) state.old state.new }
{
    raw::moves::shift_down(state, HEAD + i * ROW, HEAD + n * ROW);
}

// The weight that is stored without row i.
#[tactic(auto, using(crate::proofs::Fields::same_head, crate::proofs::RowLaws::view_length, crate::proofs::RowLaws::main_holds, crate::proofs::RowLaws::main_leaves, crate::proofs::RowLaws::other_leaves))]
fn weight_without(state: &[u8], n: usize, i: usize) -> u64
    requires { (i < n) × (head_size + n * row_size ≤ length state.now) × ((view_rows n state.now).stored_weight ≡ main_weight (view_rows n state.now)) }
    ensures { result ≡ weigh_rows in_main (without_row i (view_rows n state.now).rows) }
{
    let stored = head::stored_weight(state);
    let leaving = row::row_at(state, n, i);
    if leaving.place() < PROBATION {
        stored - leaving.weight() as u64
    } else {
        stored
    }
}

// Row i leaves; the row vacated at the end becomes zero.
#[tactic(auto, using(crate::proofs::RowLaws::out_view))]
pub fn remove_row(state: &mut [u8], n: usize, i: usize)
    requires { (i < n) × (head_size + n * row_size ≤ length state.old) × ((view_rows n state.old).stored_weight ≡ main_weight (view_rows n state.old)) }
    ensures { view_rows (n - 1) state.new ≡ take_out i (view_rows n state.old) }
{
    let stored = weight_without(state, n, i);
    close_gap(state, n, i);
    shrink(state, n, n - 1, stored);
}

// The bytes of row i go to row j, which stands before it; in a loop, as `raw::moves` has it.
#[tactic(auto, using(raw::proofs::MoveLaws::copied_step))]
pub fn copy_row(state: &mut [u8], n: usize, i: usize, j: usize)
    requires { (j < i) × (i < n) × (head_size + n * row_size ≤ length state.old) }
    ensures { state.new ≡ sets state.old (head_size + j * row_size) (cut (head_size + i * row_size) row_size state.old) }
{
    let from = HEAD + i * ROW;
    let to = HEAD + j * ROW;
    for k in 0..ROW {
        state[to + k] = state[from + k];
    }
}

// Both limits are set, and everything else up to the end of row R becomes zero.
#[tactic(auto, using(crate::proofs::RowLaws::fresh_view))]
pub fn make_fresh(state: &mut [u8], rows: usize, max: u64, ttl: u64)
    requires { head_size + rows * row_size ≤ length state.old }
    ensures { view_rows 0 state.new ≡ fresh rows max ttl (drop (head_size + rows * row_size) state.old) }
{
    raw::moves::fill_zero(state, 0, HEAD + rows * ROW);
    raw::numbers::write_u64(state, raw::layout::MAX_ENTRIES, max);
    raw::numbers::write_u64(state, raw::layout::DEFAULT_TTL, ttl);
}
