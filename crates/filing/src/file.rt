// A row filed in the order of keys.
ghost use Rattle.std.specs.Prelude.{◌≡◌, cond, true, ◌+◌, ◌*◌, ◌≤◌, ◌<◌, ltb, length, None, Err};
ghost use Rattle.types.specs.Paths.{path_places};
ghost use Rattle.rules.specs.Records.{by_use, probation, max_rows, weight_limit};
ghost use Rattle.rules.specs.Rows.{find, without_row};
ghost use Rattle.rules.specs.Sound.{ascends};
ghost use Rattle.rules.specs.Room.{file_new, take_out};
ghost use Rattle.rules.specs.Memory.{row_of, view_rows};
ghost use Rattle.rules.specs.Layout.{head_size, row_size};
ghost use Rattle.search.specs.ByKey.{searched};
ghost use Rattle.filing.specs.Filings.{Free, Over};
ghost use Rattle.entries.specs.NewEntries.{entry_from};

use entries::new_entry::NewEntry;
use memory::codes::{BY_USE, PROBATION};
use memory::head;
use memory::row::row_at;
use raw::layout::ROW;
use room::victims::Victim;
use rows::exchange::exchange_row;
use rows::insert::insert_row;
use rows::row::NewRow;
use rows::saved::insert_saved;
use search::keys::search;
use stamps::row::draw_stamp;
use types::node_addr::NodeAddr;

// The row that a key without one becomes.
#[tactic(auto, using(search::proofs::SearchLaws::none_searched))]
fn index_for(state: &[u8], n: usize, key: NodeAddr) -> usize
    requires { (ascends (view_rows n state.now).rows ≡ true) × (head_size + n * row_size ≤ length state.now) × (find key (view_rows n state.now).rows ≡ None) }
    ensures { searched key (view_rows n state.now).rows ≡ Err result }
{
    let at = search(state, n, key);
    match at {
        Ok(i) => i,
        Err(i) => i,
    }
}

// The row that a key without one becomes once row i is gone.
#[tactic(auto, using(memory::proofs::RowLaws::view_length, crate::proofs::FiledOverVictim::absent_behind))]
fn index_without(state: &[u8], n: usize, i: usize, key: NodeAddr) -> usize
    requires { (ascends (view_rows n state.now).rows ≡ true) × (head_size + n * row_size ≤ length state.now) × (find key (view_rows n state.now).rows ≡ None) × (i < n) }
    ensures { searched key (without_row i (view_rows n state.now).rows) ≡ Err result }
{
    let at = index_for(state, n, key);
    if i < at { at - 1 } else { at }
}

// A weight with a row's added: a main row's counts.
fn weight_with(stored: u64, weight: u8, place: u8) -> u64
    requires { stored ≤ max_rows * weight_limit }
    ensures { result ≡ stored + cond (ltb place probation) weight 0 }
{
    if place < PROBATION {
        stored + weight as u64
    } else {
        stored
    }
}

// The weight that is stored once a row is there.
fn stored_with(state: &[u8], weight: u8, place: u8) -> u64
    requires { (head_size ≤ length state.now) × ((view_rows 0 state.now).stored_weight ≤ max_rows * weight_limit) }
    ensures { result ≡ (view_rows 0 state.now).stored_weight + cond (ltb place probation) weight 0 }
{
    weight_with(head::stored_weight(state), weight, place)
}

// A new row, under the stamp (last_used, seq + 1). Its literal stands here and in file_over_victim: from a function of its own the row
// would be copied once more.
#[tactic(auto, using(crate::proofs::FiledRows::index_asks, crate::proofs::FiledRows::one_more_fits, crate::proofs::FiledRows::head_there, crate::proofs::FiledRows::stored_light, crate::proofs::FiledRows::place_inside), unfolding(memory::specs::Edits::with_stored_weight))]
pub(crate) fn file_new(
    state: &mut [u8],
    n: usize,
    key: NodeAddr,
    e: NewEntry,
    weight: u8,
    place: u8,
)
    requires { Free key n state.old × (e.path.len ≤ path_places) }
    ensures { view_rows (n + 1) state.new ≡ file_new key (entry_from e) weight place (view_rows n state.old) }
{
    let i = index_for(state, n, key);
    let stored = stored_with(state, weight, place);
    head::set_stored_weight(state, n, stored);
    let seq = head::next_key(state, n);
    let path = e.path;
    insert_row(
        state,
        n,
        i,
        NewRow {
            key: key,
            path: path,
            created_at: e.created_at,
            last_used: e.last_used,
            expires_at: e.expires_at,
            mtu_mark: e.mtu_mark,
            mtu: e.mtu,
            source: e.source,
            verified_until: e.verified_until,
            place: place,
            stamp_first: e.last_used,
            stamp_seq: seq,
            weight: weight,
        },
    );
}

// The victim leaves, and a new row is filed under the stamp (last_used, seq + 1).
#[tactic(auto, using(crate::proofs::FiledOverVictim::place_without), unfolding(memory::specs::Edits::with_stored_weight))]
pub(crate) fn file_over_victim(
    state: &mut [u8],
    n: usize,
    victim: Victim,
    key: NodeAddr,
    e: NewEntry,
    weight: u8,
    place: u8,
)
    requires { Over key n victim state.old × (e.path.len ≤ path_places) }
    ensures { view_rows n state.new ≡ file_new key (entry_from e) weight place (take_out victim.at (view_rows n state.old)) }
{
    let j = index_without(state, n, victim.at, key);
    head::set_stored_weight(state, n, weight_with(victim.stored, weight, place));
    let next = head::next_key(state, n);
    head::set_row_count(state, n, n as u64);
    let path = e.path;
    exchange_row(
        state,
        n,
        victim.at,
        j,
        NewRow {
            key: key,
            path: path,
            created_at: e.created_at,
            last_used: e.last_used,
            expires_at: e.expires_at,
            mtu_mark: e.mtu_mark,
            mtu: e.mtu,
            source: e.source,
            verified_until: e.verified_until,
            place: place,
            stamp_first: e.last_used,
            stamp_seq: next,
            weight: weight,
        },
    );
}

// A saved row goes back as it was, but as ByUse and under the stamp (last_used, seq + 1).
#[tactic(auto, using(crate::proofs::FiledRows::index_asks, crate::proofs::FiledRows::one_more_fits, crate::proofs::FiledRows::place_inside, crate::proofs::FiledRows::row_there, crate::proofs::FiledRows::count_asks, crate::proofs::FiledRows::seq_left), unfolding(memory::specs::Edits::with_stored_weight))]
pub fn file_unchanged(state: &mut [u8], n: usize, key: NodeAddr, row: [u8; ROW])
    requires { Free key n state.old × ((row_of row).key ≡ key) }
    ensures { view_rows (n + 1) state.new ≡ file_new key (row_of row).entry (row_of row).weight by_use (view_rows n state.old) }
{
    let i = index_for(state, n, key);
    insert_saved(state, n, i, row);
    let m = n + 1;
    let weight = row_at(state, m, i).weight();
    let stored = stored_with(state, weight, BY_USE);
    head::set_stored_weight(state, m, stored);
    let used = row_at(state, m, i).last_used();
    draw_stamp(state, m, i, BY_USE, used);
}
