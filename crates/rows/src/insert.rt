// Row i of n is new, or has a new path.
ghost use Rattle.std.specs.Prelude.{◌≡◌, ◌+◌, ◌*◌, ◌≤◌, ◌<◌, length};
ghost use Rattle.types.specs.Paths.{path_places};
ghost use Rattle.rules.specs.Records.{with_path};
ghost use Rattle.rules.specs.Lookups.{rewrite};
ghost use Rattle.rules.specs.Memory.{view_rows};
ghost use Rattle.rules.specs.Layout.{head_size, row_size};
ghost use Rattle.rows.specs.Insertions.{row_from, inserted};

use crate::row::NewRow;
use crate::{row, values};
use memory::head;
use raw::layout::{HEAD, ROW};
use types::coord::Path;

// The rows from i on move up by a row, and row i is new.
pub fn insert_row(state: &mut [u8], n: usize, i: usize, r: NewRow)
    requires { (i ≤ n) × (head_size + (n + 1) * row_size ≤ length state.old) × (r.path.len ≤ path_places) }
    ensures { view_rows (n + 1) state.new ≡ inserted i (row_from r) (view_rows n state.old) }
{
    raw::moves::shift_up(state, HEAD + i * ROW, HEAD + n * ROW);
    row::write_row(state, HEAD + i * ROW, r);
    let m = n + 1;
    head::set_row_count(state, m, m as u64);
}

// Row i gets another path.
#[tactic(auto, using(crate::proofs::PathLaws::path_view))]
pub fn set_path(state: &mut [u8], n: usize, i: usize, p: Path)
    requires { (i < n) × (head_size + n * row_size ≤ length state.old) × (p.len ≤ path_places) }
    ensures { view_rows n state.new ≡ rewrite (with_path p) i (view_rows n state.old) }
{
    values::store_path(state, HEAD + i * ROW + raw::layout::ENTRY, p);
}
