// A row's bytes, copied out, and put in again.
ghost use Rattle.std.specs.Prelude.{◌≡◌, length, ◌+◌, ◌*◌, ◌≤◌, ◌<◌};
ghost use Rattle.std.proofs.lemmas.List.Edits.{sets};
ghost use Rattle.rules.specs.Layout.{head_size, row_size};
ghost use Rattle.rows.specs.Insertions.{inserted};
ghost use Rattle.rules.specs.Memory.{cut, row_of, view_rows};

use memory::head;
use raw::layout::{HEAD, ROW};

#[tactic(auto, using(raw::proofs::StoreLaws::part_stored))]
fn store_saved(s: &mut [u8], at: usize, row: [u8; ROW])
    requires { at + row_size ≤ length s.old }
    ensures s_after { s.new ≡ sets s.old at row }
    ensures row_len { length row ≡ row_size }
{
    s[at..at + ROW].copy_from_slice(&row);
}

// The rows from i on move up by a row, and row i has these bytes.
#[tactic(auto, using(crate::proofs::InsertLaws::insert_view))]
pub fn insert_saved(state: &mut [u8], n: usize, i: usize, row: [u8; ROW])
    requires { (i ≤ n) × (head_size + (n + 1) * row_size ≤ length state.old) }
    ensures { view_rows (n + 1) state.new ≡ inserted i (row_of row) (view_rows n state.old) }
{
    raw::moves::shift_up(state, HEAD + i * ROW, HEAD + n * ROW);
    store_saved(state, HEAD + i * ROW, row);
    let m = n + 1;
    head::set_row_count(state, m, m as u64);
}

// Row i's bytes, to go back with.
pub fn save_row(state: &[u8], n: usize, i: usize) -> [u8; ROW]
    requires { (i < n) × (head_size + n * row_size ≤ length state.now) }
    ensures { result ≡ cut (head_size + i * row_size) row_size state.now }
{
    let at = HEAD + i * ROW;
    state[at..at + ROW].try_into().unwrap()
}
