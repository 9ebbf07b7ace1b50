// The head's five numbers, and R.
#![tactic(auto, unfolding(rules::specs::Memory::view_rows))]

ghost use Rattle.std.specs.Prelude.{◌≡◌, ◌+◌, ◌≤◌, ◌<◌, length};
ghost use Rattle.rules.specs.Memory.{capacity, view_rows};
ghost use Rattle.rules.specs.Layout.{head_size};
ghost use Rattle.rules.specs.Records.{with_seq};
ghost use Rattle.memory.specs.Edits.{with_stored_weight, with_row_count};
ghost use Rattle.types.specs.Values.{largest_number};

use raw::layout;
use raw::layout::{HEAD, ROW};

// R: the rows that fit whole; 0 where the head doesn't fit.
#[tactic(auto, unfolding(rules::specs::Memory::capacity))]
pub fn rows_that_fit(state: &[u8]) -> usize
    ensures { result ≡ capacity state.now }
{
    if state.len() < HEAD {
        return 0;
    }
    (state.len() - HEAD) / ROW
}

pub fn max_entries(state: &[u8]) -> u64
    requires { head_size ≤ length state.now }
    ensures { result ≡ (view_rows 0 state.now).max_entries }
{
    raw::numbers::read_u64(state, layout::MAX_ENTRIES)
}

pub fn default_ttl(state: &[u8]) -> u64
    requires { head_size ≤ length state.now }
    ensures { result ≡ (view_rows 0 state.now).default_ttl }
{
    raw::numbers::read_u64(state, layout::DEFAULT_TTL)
}

pub fn seq(state: &[u8]) -> u64
    requires { head_size ≤ length state.now }
    ensures { result ≡ (view_rows 0 state.now).seq }
{
    raw::numbers::read_u64(state, layout::SEQ)
}

pub fn stored_weight(state: &[u8]) -> u64
    requires { head_size ≤ length state.now }
    ensures { result ≡ (view_rows 0 state.now).stored_weight }
{
    raw::numbers::read_u64(state, layout::STORED_WEIGHT)
}

pub fn row_count(state: &[u8]) -> u64
    requires { head_size ≤ length state.now }
    ensures { result ≡ (view_rows 0 state.now).row_count }
{
    raw::numbers::read_u64(state, layout::ROW_COUNT)
}

// Head numbers are set one at a time; n is any number of rows.
#[tactic(auto, using(crate::proofs::Fields::head_store), unfolding(rules::specs::Records::with_seq, crate::proofs::Fields::with_head_number))]
fn set_seq(state: &mut [u8], n: usize, v: u64)
    requires { head_size ≤ length state.old }
    ensures { view_rows n state.new ≡ with_seq v (view_rows n state.old) }
{
    raw::numbers::write_u64(state, layout::SEQ, v);
}

// seq, raised by 1, for a new stamp.
#[tactic(auto, using(crate::proofs::Fields::same_head))]
pub fn next_key(state: &mut [u8], n: usize) -> u64
    requires { (head_size ≤ length state.old) × ((view_rows n state.old).seq < largest_number) }
    ensures { (result ≡ (view_rows n state.old).seq + 1) × (view_rows n state.new ≡ with_seq result (view_rows n state.old)) }
{
    let next = seq(state) + 1;
    set_seq(state, n, next);
    next
}

#[tactic(auto, using(crate::proofs::Fields::head_store), unfolding(crate::specs::Edits::with_stored_weight, crate::proofs::Fields::with_head_number))]
pub fn set_stored_weight(state: &mut [u8], n: usize, v: u64)
    requires { head_size ≤ length state.old }
    ensures { view_rows n state.new ≡ with_stored_weight v (view_rows n state.old) }
{
    raw::numbers::write_u64(state, layout::STORED_WEIGHT, v);
}

#[tactic(auto, using(crate::proofs::Fields::head_store), unfolding(crate::specs::Edits::with_row_count, crate::proofs::Fields::with_head_number))]
pub fn set_row_count(state: &mut [u8], n: usize, v: u64)
    requires { head_size ≤ length state.old }
    ensures { view_rows n state.new ≡ with_row_count v (view_rows n state.old) }
{
    raw::numbers::write_u64(state, layout::ROW_COUNT, v);
}
