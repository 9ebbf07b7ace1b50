// One sweep: the rows that leave, and the others kept together in their order. Which rows leave a closure says, as the original's
// retain_entries has it; what it captures is then part of the loop, which stays small.
ghost use Rattle.std.specs.Prelude.{◌≡◌, Bool, cond, false, ◌+◌, ◌*◌, ◌≤◌, ◌<◌, length};
ghost use Rattle.std.specs.Fn.{FnReturnsAt};
ghost use Rattle.rules.specs.Rows.{in_main, weigh_rows, main_weight};
ghost use Rattle.rules.specs.Memory.{view_rows};
ghost use Rattle.rules.specs.Layout.{head_size, row_size};
ghost use Rattle.rules.specs.Records.{Row as RowSeen, max_rows};
ghost use Rattle.retention.specs.Sweep.{kept_rows, kept_down, OnlyKept, PathFit, PathsFit, Swept, Tests};

use memory::codes;
use memory::row::{Row, Rows, row_at};

// Row i goes down to place j.
#[tactic(auto, using(crate::proofs::KeptRows::down, crate::proofs::KeptRows::down_stays))]
fn keep_row(state: &mut [u8], n: usize, i: usize, j: usize)
    requires { (j ≤ i) × (i < n) × (head_size + n * row_size ≤ length state.old) }
    ensures { state.new ≡ kept_down i j state.old }
{
    if j < i {
        memory::rows::copy_row(state, n, i, j);
    }
}

// The rows that do not leave come first, in their order; how many they are.
fn keep_rows<F: Fn(&Row<'_>) -> bool>(state: &mut [u8], n: usize, leaves: &F) -> usize
    requires rows { (head_size + n * row_size ≤ length state.old) × PathsFit (view_rows n state.old).rows }
    requires callable { (row : _) → PathFit row.now → F.pre leaves.now row }
    ensures { OnlyKept (FnReturnsAt F.Fn leaves.now) n result state.old state.new }
{
    let mut j = 0;
    for i in 0..n {
        if leaves(&row_at(state, n, i)) {
            continue;
        }
        keep_row(state, n, i, j);
        j += 1;
    }
    j
}

// What a row adds to the stored weight.
#[tactic(auto, using(crate::proofs::KeptRows::weighs, crate::proofs::KeptRows::weighs_nothing))]
fn weight_in_main(row: &Row<'_>) -> u64
    ensures { (result ≡ cond (in_main row.now) row.now.weight 0) × (result < 256) }
{
    if row.place() < codes::PROBATION {
        row.weight() as u64
    } else {
        0
    }
}

// The weight that n rows store.
#[tactic(auto, unfolding(rules::specs::Rows::total))]
fn weight_of(state: &[u8], n: usize) -> u64
    requires { (n ≤ max_rows) × (head_size + n * row_size ≤ length state.now) }
    ensures { result ≡ weigh_rows in_main (view_rows n state.now).rows }
{
    let mut sum: u64 = 0;
    for row in Rows::of(state, n) {
        sum += weight_in_main(&row);
    }
    sum
}

// Whether a row leaves.
fn any_leaves<F: Fn(&Row<'_>) -> bool>(state: &[u8], n: usize, leaves: &F) -> bool
    requires rows { (head_size + n * row_size ≤ length state.now) × PathsFit (view_rows n state.now).rows }
    requires callable { (row : _) → PathFit row.now → F.pre leaves.now row }
    ensures { result ≡ false → (test : RowSeen → Bool) → Tests (FnReturnsAt F.Fn leaves.now) test → kept_rows test (view_rows n state.now).rows ≡ (view_rows n state.now).rows }
{
    for i in 0..n {
        let row = row_at(state, n, i);
        if leaves(&row) {
            return true;
        }
    }
    false
}

// One sweep over n rows; how many stay.
pub fn retain_rows<F: Fn(&Row<'_>) -> bool>(state: &mut [u8], n: usize, leaves: F) -> usize
    requires rows { (n ≤ max_rows) × (head_size + n * row_size ≤ length state.old) × PathsFit (view_rows n state.old).rows }
    requires callable { (row : _) → PathFit row.now → F.pre leaves row }
    ensures few { result ≤ n }
    ensures swept { (test : RowSeen → Bool) → Tests (FnReturnsAt F.Fn leaves) test → Swept test n result state.old state.new }
{
    let kept = keep_rows(state, n, &leaves);
    let stored = weight_of(state, kept);
    memory::rows::shrink(state, n, kept, stored);
    kept
}

// The same on a state that counts its rows and stores their weight: where no row leaves, nothing is written.
pub fn retain_entries<F: Fn(&Row<'_>) -> bool>(state: &mut [u8], n: usize, leaves: F) -> usize
    requires rows { (n ≤ max_rows) × (head_size + n * row_size ≤ length state.old) × PathsFit (view_rows n state.old).rows × ((view_rows n state.old).row_count ≡ n) × ((view_rows n state.old).stored_weight ≡ main_weight (view_rows n state.old)) }
    requires callable { (row : _) → PathFit row.now → F.pre leaves row }
    ensures few { result ≤ n }
    ensures swept { (test : RowSeen → Bool) → Tests (FnReturnsAt F.Fn leaves) test → Swept test n result state.old state.new }
{
    if any_leaves(state, n, &leaves) {
        return retain_rows(state, n, leaves);
    }
    n
}
