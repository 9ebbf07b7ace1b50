// A verified insert of a key whose row is in main, with room there once the row is out: the row is written again where it stands.
ghost use Rattle.std.specs.Prelude.{◌≡◌, true, ◌&&◌, ◌+◌, ◌*◌, ◌-◌, ◌≤◌, ◌<◌, min, ltb, length, Ok};
ghost use Rattle.types.specs.declared.node_addr.NodeAddr.{NodeAddr as Address};
ghost use Rattle.types.specs.Paths.{path_places};
ghost use Rattle.types.specs.Values.{largest_number};
ghost use Rattle.rules.specs.Records.{by_use, weight_bound};
ghost use Rattle.rules.specs.Rows.{row_at, in_main, without_row, weigh_rows, main_count};
ghost use Rattle.rules.specs.Sound.{sound};
ghost use Rattle.rules.specs.Entries.{mark_verified};
ghost use Rattle.rules.specs.Lookups.{rewrite};
ghost use Rattle.rules.specs.Room.{has_room, take_out, file_new};
ghost use Rattle.rules.specs.Placement.{verified_entry};
ghost use Rattle.rules.specs.Memory.{capacity, view_rows};
ghost use Rattle.rules.specs.Layout.{head_size, row_size};
ghost use Rattle.search.specs.ByKey.{searched};
ghost use Rattle.verification.specs.Mtu.{given_mtu};

use entries::times::{VERIFIED_TTL_MS, add_times};
use filing::refile::update_in_place;
use memory::codes::{PROBATION, SOME_MTU, VERIFIED};
use memory::{head, row};
use room::closed_form::{cut_to_bound, has_room, main_len};
use types::coord::Path;

// Row i's entry becomes Verified.
#[tactic(auto, using(crate::proofs::Marks::verified_source_lem))]
fn mark_verified(state: &mut [u8], n: usize, i: usize, time: u64)
    requires { (i < n) × (head_size + n * row_size ≤ length state.old) }
    ensures { view_rows n state.new ≡ rewrite (mark_verified time) i (view_rows n state.old) }
{
    let until = add_times(time, VERIFIED_TTL_MS);
    row::set_source(state, n, i, VERIFIED, until);
}

// Row i's entry gets the MTU, if one is given.
#[tactic(auto, using(crate::proofs::Marks::no_mtu_lem, crate::proofs::Marks::some_mtu_lem))]
fn set_given_mtu(state: &mut [u8], n: usize, i: usize, mtu: Option<u16>)
    requires { (i < n) × (head_size + n * row_size ≤ length state.old) }
    ensures { view_rows n state.new ≡ rewrite (given_mtu mtu) i (view_rows n state.old) }
{
    match mtu {
        None => {}
        Some(m) => row::set_mtu(state, n, i, SOME_MTU, m),
    }
}

// The weight that is stored without row i of main.
#[tactic(auto, using(room::proofs::RoomToFile::laid_out, crate::proofs::InPlace::weight_held, crate::proofs::InPlace::weight_out))]
fn stored_without(state: &[u8], n: usize, i: usize) -> u64
    requires { (sound (capacity state.now) (view_rows n state.now) ≡ true) × (i < n) × (in_main (row_at i (view_rows n state.now).rows) ≡ true) }
    ensures { result ≡ weigh_rows in_main (without_row i (view_rows n state.now).rows) }
{
    let stored = head::stored_weight(state);
    let own = row::row_at(state, n, i).weight() as u64;
    stored - own
}

// The main rows but one, to be held against max_entries; rows that are no more than it need not be counted.
#[tactic(auto, using(crate::proofs::InPlace::mains_few, crate::proofs::InPlace::few_rows))]
fn other_main_rows(state: &[u8], n: usize, max: u64) -> u64
    requires { (head_size + n * row_size ≤ length state.now) × (0 < main_count (view_rows n state.now)) }
    ensures { ltb result max ≡ ltb (main_count (view_rows n state.now) - 1) max }
{
    let rows = n as u64;
    if rows <= max {
        return rows - 1;
    }
    main_len(state, n) - 1
}

// Whether row i is in main, and main has room for w once row i is out.
#[tactic(auto, using(room::proofs::RoomToFile::laid_out, memory::proofs::Fields::same_head, room::proofs::ClosedForm::sound_small, crate::proofs::InPlace::stored_few, crate::proofs::InPlace::main_some, crate::proofs::InPlace::room_out, crate::proofs::InPlace::no_main, crate::proofs::InPlace::in_main_lem))]
pub fn has_room_without(state: &[u8], n: usize, i: usize, w: u64) -> bool
    requires { (sound (capacity state.now) (view_rows n state.now) ≡ true) × (i < n) }
    ensures { result ≡ in_main (row_at i (view_rows n state.now).rows) && has_room (min w (weight_bound (view_rows n state.now).max_entries)) (take_out i (view_rows n state.now)) }
{
    if PROBATION <= row::row_at(state, n, i).place() {
        return false;
    }
    let max = head::max_entries(state);
    let others = other_main_rows(state, n, max);
    let stored = stored_without(state, n, i);
    has_room(max, others, stored, cut_to_bound(w, max))
}

// Row i of main, as taking it out and filing it again would leave it.
#[tactic(auto, using(room::proofs::RoomToFile::laid_out, memory::proofs::Fields::same_head, room::proofs::RoomToFile::shown, crate::proofs::InPlace::stored_few, crate::proofs::InPlace::verified_back))]
pub fn verify_in_place(
    state: &mut [u8],
    n: usize,
    i: usize,
    path: Path,
    time: u64,
    mtu: Option<u16>,
    weight: u8,
)
    requires sound { sound (capacity state.old) (view_rows n state.old) ≡ true }
    requires inside { i < n }
    requires main { in_main (row_at i (view_rows n state.old).rows) ≡ true }
    requires seq { (view_rows n state.old).seq < largest_number }
    requires path { path.len ≤ path_places }
    ensures { (k : Address) → searched k (view_rows n state.old).rows ≡ Ok i → view_rows n state.new ≡ file_new k (verified_entry k path time mtu (view_rows n state.old)) weight by_use (take_out i (view_rows n state.old)) }
{
    let ttl = head::default_ttl(state);
    let stored = stored_without(state, n, i) + weight as u64;
    update_in_place(state, n, i, path, time, ttl, weight);
    mark_verified(state, n, i, time);
    set_given_mtu(state, n, i, mtu);
    head::set_stored_weight(state, n, stored);
}
