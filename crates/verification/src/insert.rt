// A verified insert, done.
ghost use Rattle.std.specs.Prelude.{◌≡◌, true, ◌+◌, ◌*◌, ◌≤◌, length, None};
ghost use Rattle.types.specs.declared.node_addr.NodeAddr.{NodeAddr as Address};
ghost use Rattle.rules.specs.Sound.{sound};
ghost use Rattle.rules.specs.Placement.{without_key, verified_entry, insert_verified};
ghost use Rattle.rules.specs.Memory.{capacity, view_rows};
ghost use Rattle.rules.specs.Layout.{head_size, row_size};
ghost use Rattle.search.specs.ByKey.{searched};
ghost use Rattle.entries.specs.NewEntries.{entry_from};
ghost use Rattle.verification.specs.Searches.{Within};
ghost use Rattle.verification.specs.Inserts.{Allowed, Inserting};

use crate::in_place::{has_room_without, verify_in_place};
use entries::new_entry::{NewEntry, new_entry, updated_entry, verified_entry, with_mtu};
use filing::in_room::file_in_room;
use memory::codes::BY_USE;
use memory::row::row_at;
use memory::rows::remove_row;
use room::victims::make_room;
use types::coord::Path;
use types::node_addr::NodeAddr;
use types::placed::VerifiedInsert;

// Without a path MTU: the entry of the row that was found (expired too), updated, or a new one; marked Verified.
#[tactic(auto, using(memory::proofs::Fields::same_head, crate::proofs::VerifiedRows::within, crate::proofs::VerifiedRows::entry_new))]
fn plain_entry(state: &[u8], n: usize, at: Result<usize, usize>, path: Path, time: u64) -> NewEntry
    requires { (head_size + n * row_size ≤ length state.now) × Within n at }
    ensures { ((k : Address) → at ≡ searched k (view_rows n state.now).rows → entry_from result ≡ verified_entry k path time None (view_rows n state.now)) × (result.path ≡ path) }
{
    let ttl = memory::head::default_ttl(state);
    match at {
        Ok(i) => verified_entry(updated_entry(&row_at(state, n, i), path, time, ttl), time),
        Err(_) => verified_entry(new_entry(path, time, ttl), time),
    }
}

// The form with a path MTU then sets it.
#[tactic(auto, using(crate::proofs::VerifiedRows::entry_plain))]
fn verified_entry_of(
    state: &[u8],
    n: usize,
    at: Result<usize, usize>,
    path: Path,
    time: u64,
    mtu: Option<u16>,
) -> NewEntry
    requires { (head_size + n * row_size ≤ length state.now) × Within n at }
    ensures { ((k : Address) → at ≡ searched k (view_rows n state.now).rows → entry_from result ≡ verified_entry k path time mtu (view_rows n state.now)) × (result.path ≡ path) }
{
    let e = plain_entry(state, n, at, path, time);
    match mtu {
        None => e,
        Some(m) => with_mtu(e, m),
    }
}

// The row that was found leaves; how many rows stay.
#[tactic(auto, using(room::proofs::RoomToFile::shown, room::proofs::RoomToFile::laid_out, crate::proofs::VerifiedRows::within, crate::proofs::VerifiedRows::out_absent))]
fn take_out(state: &mut [u8], n: usize, at: Result<usize, usize>) -> usize
    requires { (sound (capacity state.old) (view_rows n state.old) ≡ true) × Within n at }
    ensures { (k : Address) → at ≡ searched k (view_rows n state.old).rows → view_rows result state.new ≡ without_key k (view_rows n state.old) }
{
    match at {
        Ok(i) => {
            remove_row(state, n, i);
            n - 1
        }
        Err(_) => n,
    }
}

// The key's row out, room sought, and the row filed in main either way: over the victim, where one was enough.
#[tactic(auto, using(room::proofs::RoomToFile::laid_out, crate::proofs::VerifiedRows::found_within, rules::proofs::Others::weight_ok))]
fn file_anew(
    state: &mut [u8],
    n: usize,
    at: Result<usize, usize>,
    key: NodeAddr,
    path: Path,
    time: u64,
    mtu: Option<u16>,
) -> VerifiedInsert
    requires { Allowed key path time n state.old × (at ≡ searched key (view_rows n state.old).rows) }
    ensures { Inserting (insert_verified key path time mtu (view_rows n state.old)) path result state.new }
{
    let e = verified_entry_of(state, n, at, path, time, mtu);
    let rows = take_out(state, n, at);
    let weight = path.weight();
    let row_weight = weight as u8;
    let room = make_room(state, rows, weight, time);
    file_in_room(state, room.rows, room.victim, key, e, row_weight, BY_USE);
    VerifiedInsert {
        weight: weight,
        examined: room.examined,
    }
}

// `at` is where the key's row stands. Where it would go back to where it stands, it doesn't leave.
#[tactic(auto, using(room::proofs::RoomToFile::laid_out, room::proofs::RoomToFile::rises, crate::proofs::NoPlace::row_inside, rules::proofs::Others::weight_ok, room::proofs::RoomToFile::shown, crate::proofs::RowKept::room_told, crate::proofs::RowKept::kept_said, crate::proofs::RowKept::kept_left))]
pub fn file_verified(
    state: &mut [u8],
    n: usize,
    at: Result<usize, usize>,
    key: NodeAddr,
    path: Path,
    time: u64,
    mtu: Option<u16>,
) -> VerifiedInsert
    requires { Allowed key path time n state.old × (at ≡ searched key (view_rows n state.old).rows) }
    ensures { Inserting (insert_verified key path time mtu (view_rows n state.old)) path result state.new }
{
    match at {
        Ok(i) => {
            let weight = path.weight();
            if has_room_without(state, n, i, weight) {
                verify_in_place(state, n, i, path, time, mtu, weight as u8);
                return VerifiedInsert {
                    weight: weight,
                    examined: 0,
                };
            }
            file_anew(state, n, at, key, path, time, mtu)
        }
        Err(_) => file_anew(state, n, at, key, path, time, mtu),
    }
}
