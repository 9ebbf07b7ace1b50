// A row leaves, and another goes in: only the rows between the two places move.
ghost use Rattle.std.specs.Prelude.{◌≡◌, ◌+◌, ◌*◌, ◌≤◌, ◌<◌, length};
ghost use Rattle.types.specs.Paths.{path_places};
ghost use Rattle.rules.specs.Memory.{view_rows};
ghost use Rattle.rules.specs.Layout.{head_size, row_size};
ghost use Rattle.rows.specs.Insertions.{row_from, exchanged, Opened};

use crate::row;
use crate::row::NewRow;
use raw::layout::{HEAD, ROW};

// Row i is overwritten by the rows that move, and row j is free to be written.
fn open_place(state: &mut [u8], n: usize, i: usize, j: usize)
    requires { (i < n) × (j < n) × (head_size + n * row_size ≤ length state.old) }
    ensures { Opened i j (view_rows n state.old) (view_rows n state.new) }
{
    if i < j {
        raw::moves::shift_down(state, HEAD + i * ROW, HEAD + (j + 1) * ROW);
    } else {
        raw::moves::shift_up(state, HEAD + j * ROW, HEAD + i * ROW);
    }
}

// Row i leaves, and another goes in as row j of those that stay.
pub fn exchange_row(state: &mut [u8], n: usize, i: usize, j: usize, r: NewRow)
    requires { (i < n) × (j < n) × (head_size + n * row_size ≤ length state.old) × (r.path.len ≤ path_places) }
    ensures { view_rows n state.new ≡ exchanged i j (row_from r) (view_rows n state.old) }
{
    open_place(state, n, i, j);
    row::write_row(state, HEAD + j * ROW, r);
}
