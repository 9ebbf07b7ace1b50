// Row i, updated and refiled where it stands.
ghost use Rattle.std.specs.Prelude.{◌≡◌, ◌+◌, ◌*◌, ◌≤◌, ◌<◌, length};
ghost use Rattle.types.specs.Paths.{path_places};
ghost use Rattle.types.specs.Values.{largest_number};
ghost use Rattle.rules.specs.Rows.{row_at};
ghost use Rattle.rules.specs.Entries.{update};
ghost use Rattle.rules.specs.Lookups.{rewrite};
ghost use Rattle.rules.specs.Room.{refile};
ghost use Rattle.rules.specs.Memory.{view_rows};
ghost use Rattle.rules.specs.Layout.{head_size, row_size};

use entries::times::add_times;
use memory::row;
use rows::insert::set_path;
use types::coord::Path;

// Row i's entry is updated.
#[tactic(auto, using(crate::proofs::RefiledRows::updated))]
fn update(state: &mut [u8], n: usize, i: usize, path: Path, time: u64, ttl: u64)
    requires { (i < n) × (head_size + n * row_size ≤ length state.old) × (path.len ≤ path_places) }
    ensures { view_rows n state.new ≡ rewrite (update path time ttl) i (view_rows n state.old) }
{
    let expires = add_times(time, ttl);
    set_path(state, n, i, path);
    row::set_times(state, n, i, time, expires);
    row::mark_hint(state, n, i);
}

// Row i gets this weight, and is stamped with last_used.
#[tactic(auto, using(crate::proofs::RefiledRows::weighed_refiled), unfolding(rules::specs::Rows::with_rows))]
fn refile(state: &mut [u8], n: usize, i: usize, weight: u8)
    requires { (i < n) × (head_size + n * row_size ≤ length state.old) × ((view_rows n state.old).seq < largest_number) }
    ensures { view_rows n state.new ≡ refile (row_at i (view_rows n state.old).rows).entry weight i (view_rows n state.old) }
{
    row::set_weight(state, n, i, weight);
    stamps::row::restamp(state, n, i);
}

// Row i's entry is updated, and refiled at this weight; stored_weight is left to the caller.
#[tactic(auto, using(memory::proofs::RowLaws::view_length, crate::proofs::RefiledRows::rewritten_refiled), unfolding(rules::specs::Lookups::rewrite, rules::specs::Rows::with_rows))]
pub fn update_in_place(
    state: &mut [u8],
    n: usize,
    i: usize,
    path: Path,
    time: u64,
    ttl: u64,
    weight: u8,
)
    requires { (i < n) × (head_size + n * row_size ≤ length state.old) × ((view_rows n state.old).seq < largest_number) × (path.len ≤ path_places) }
    ensures { view_rows n state.new ≡ refile (update path time ttl (row_at i (view_rows n state.old).rows).entry) weight i (view_rows n state.old) }
{
    update(state, n, i, path, time, ttl);
    refile(state, n, i, weight);
}
