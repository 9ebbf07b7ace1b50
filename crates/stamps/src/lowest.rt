// The lowest stamp of a place, or of each place of main, and how many rows are there.
ghost use Rattle.std.specs.Prelude.{◌≡◌, ◌+◌, ◌*◌, ◌≤◌, ◌<◌, length};
ghost use Rattle.rules.specs.Memory.{view_rows};
ghost use Rattle.rules.specs.Layout.{head_size, row_size};
ghost use Rattle.stamps.specs.Walked.{no_row, lower_best, lower_row, best_row, LowestIs, MainIs};

use memory::codes::{BY_USE, PARKED, PROBATION};
use memory::row::{Row, row_at};

// The row with the lowest stamp so far, and that stamp; a row past the last where there is none. An enum is slow to copy for each row.
#[derive(Clone, Copy)]
struct Best {
    row: usize,
    first: u64,
    seq: u64,
}

// The row with the lowest stamp of a place, and how many rows are at that place.
#[derive(Clone, Copy)]
pub struct LowestStamp {
    pub row: Option<usize>,
    pub count: u64,
}

// The rows of main with the lowest stamps, of those parked and of those in ByUse, and how many rows main has.
#[derive(Clone, Copy)]
pub struct LowestOfMain {
    pub parked: Option<usize>,
    pub by_use: Option<usize>,
    pub count: u64,
}

fn no_row(n: usize) -> Best
    ensures { result ≡ no_row n }
{
    Best {
        row: n,
        first: 0,
        seq: 0,
    }
}

// The best so far stays if there is one and its stamp is before row i's.
#[tactic(auto, unfolding(crate::specs::Walked::lower_best))]
fn lower_of(best: Best, n: usize, i: usize, first: u64, seq: u64) -> Best
    ensures { result ≡ lower_best n best i first seq }
{
    if (best.row < n) & ((best.first < first) | ((best.first == first) & (best.seq < seq))) {
        return best;
    }
    Best { row: i, first, seq }
}

#[tactic(auto, using(std::proofs::lemmas::Bool::Decides::nat_tests), unfolding(crate::specs::Walked::best_row))]
fn row_of(best: Best, n: usize) -> Option<usize>
    ensures { result ≡ best_row n best }
{
    if best.row < n {
        return Some(best.row);
    }
    None
}

// Row i against the best so far, if it is at this place.
#[tactic(auto, using(std::proofs::lemmas::Bool::Decides::nat_tests), unfolding(crate::specs::Walked::lower_row, rules::specs::Rows::at_place))]
fn lower_row(row: &Row<'_>, n: usize, i: usize, place: u8, best: Best) -> Best
    ensures { result ≡ lower_row n place i row.now best }
{
    if row.place() != place {
        return best;
    }
    let first = row.stamp_first();
    let seq = row.stamp_seq();
    lower_of(best, n, i, first, seq)
}

// From the last row to the first, so that equal stamps go to the lower key.
#[tactic(auto, using(crate::proofs::LowestLaws::passed), unfolding(rules::specs::Rows::at_place))]
pub fn lowest_stamp(state: &[u8], n: usize, place: u8) -> LowestStamp
    requires { head_size + n * row_size ≤ length state.now }
    ensures { LowestIs place result (view_rows n state.now).rows }
{
    let mut best = no_row(n);
    let mut count: u64 = 0;
    for i in (0..n).rev() {
        let row = row_at(state, n, i);
        best = lower_row(&row, n, i, place, best);
        count += (row.place() == place) as u64;
    }
    LowestStamp {
        row: row_of(best, n),
        count,
    }
}

// Both places of main, in one pass.
#[tactic(auto, using(crate::proofs::LowestLaws::passed), unfolding(rules::specs::Rows::in_main))]
pub fn lowest_of_main(state: &[u8], n: usize) -> LowestOfMain
    requires { head_size + n * row_size ≤ length state.now }
    ensures { MainIs result (view_rows n state.now).rows }
{
    let mut parked = no_row(n);
    let mut by_use = no_row(n);
    let mut count: u64 = 0;
    for i in (0..n).rev() {
        let row = row_at(state, n, i);
        parked = lower_row(&row, n, i, PARKED, parked);
        by_use = lower_row(&row, n, i, BY_USE, by_use);
        count += (row.place() < PROBATION) as u64;
    }
    LowestOfMain {
        parked: row_of(parked, n),
        by_use: row_of(by_use, n),
        count,
    }
}
