// The calls for a memory that is known to be sound, such as one that only these functions have written since a done fresh.
#![tactic(auto, using(crate::proofs::ToldReplies::told_call))]

ghost use Rattle.std.specs.Prelude.{◌≡◌, true};
ghost use Rattle.rules.specs.Sound.{sound};
ghost use Rattle.rules.specs.Calls.{Insert, InsertWithTtl, InsertFunded, InsertStated, InsertVerified, InsertVerifiedWithPathMtu};
ghost use Rattle.rules.specs.Calls.{Get, GetAndTouch, Remove, Demote, ClearPathMtu, PurgeExpired, Clear, InvalidateViaNode, InvalidateOtherRoots, Stats, NextExpiry};
ghost use Rattle.rules.specs.Memory.{capacity, view};
ghost use Rattle.rules.specs.Lent.{call, got_part};
ghost use Rattle.boundary.specs.Exported.{address_from, path_from, funded, Told, PartAt, row_taken};
ghost use Rattle.coordcache.specs.Places.{place_told};

use boundary::{address, funding, path_from, take_row, tell};
use raw::layout::{ADDRESS, ROW};
use replies::answer::{Told, reply};
use types::refusal::Refusal;
use types::reply::Reply;

// Hints: outcome, added weight, segment, unfunded, examined.
#[unsafe(no_mangle)]
pub extern "C" fn coord_cache_insert_unchecked(
    state: &mut [u8],
    key: &[u8; ADDRESS],
    path: &[u8],
    time: u64,
    values: &mut [u64; 5],
) -> u8
    requires { sound (capacity state.old) (view state.old) ≡ true }
    ensures { Told (call state.old (Insert (address_from key.now) (path_from path.now) time)) result values.new state.new }
{
    let k = address(key);
    let p = path_from(path);
    let answer = placement::calls::insert_unchecked(state, k, p, time);
    tell(reply(answer), values)
}

#[unsafe(no_mangle)]
pub extern "C" fn coord_cache_insert_with_ttl_unchecked(
    state: &mut [u8],
    key: &[u8; ADDRESS],
    path: &[u8],
    time: u64,
    ttl: u64,
    values: &mut [u64; 5],
) -> u8
    requires { sound (capacity state.old) (view state.old) ≡ true }
    ensures { Told (call state.old (InsertWithTtl (address_from key.now) (path_from path.now) time ttl)) result values.new state.new }
{
    let k = address(key);
    let p = path_from(path);
    let answer = placement::calls::insert_with_ttl_unchecked(state, k, p, time, ttl);
    tell(reply(answer), values)
}

#[tactic(auto, using(crate::proofs::ToldRefusals::refused))]
#[unsafe(no_mangle)]
pub extern "C" fn coord_cache_insert_funded_unchecked(
    state: &mut [u8],
    key: &[u8; ADDRESS],
    path: &[u8],
    time: u64,
    kind: u8,
    amount: u64,
    values: &mut [u64; 5],
) -> u8
    requires { sound (capacity state.old) (view state.old) ≡ true }
    ensures { Told (funded state.old kind amount (InsertFunded (address_from key.now) (path_from path.now) time)) result values.new state.new }
{
    if 1 < kind {
        return tell(Reply::from(Refusal::BadCommand), values);
    }
    let k = address(key);
    let p = path_from(path);
    let paid = funding(kind, amount);
    let answer = placement::calls::insert_funded_unchecked(state, k, p, time, paid);
    tell(reply(answer), values)
}

#[tactic(auto, using(crate::proofs::ToldRefusals::refused))]
#[unsafe(no_mangle)]
pub extern "C" fn coord_cache_insert_stated_unchecked(
    state: &mut [u8],
    key: &[u8; ADDRESS],
    path: &[u8],
    time: u64,
    kind: u8,
    amount: u64,
    values: &mut [u64; 5],
) -> u8
    requires { sound (capacity state.old) (view state.old) ≡ true }
    ensures { Told (funded state.old kind amount (InsertStated (address_from key.now) (path_from path.now) time)) result values.new state.new }
{
    if 1 < kind {
        return tell(Reply::from(Refusal::BadCommand), values);
    }
    let k = address(key);
    let p = path_from(path);
    let paid = funding(kind, amount);
    let answer = placement::calls::insert_stated_unchecked(state, k, p, time, paid);
    tell(reply(answer), values)
}

// Verified inserts: 0, weight, 0, 0, examined.
#[unsafe(no_mangle)]
pub extern "C" fn coord_cache_insert_verified_unchecked(
    state: &mut [u8],
    key: &[u8; ADDRESS],
    path: &[u8],
    time: u64,
    values: &mut [u64; 5],
) -> u8
    requires { sound (capacity state.old) (view state.old) ≡ true }
    ensures { Told (call state.old (InsertVerified (address_from key.now) (path_from path.now) time)) result values.new state.new }
{
    let k = address(key);
    let p = path_from(path);
    let answer = verification::calls::insert_verified_unchecked(state, k, p, time);
    tell(reply(answer), values)
}

#[unsafe(no_mangle)]
pub extern "C" fn coord_cache_insert_verified_with_path_mtu_unchecked(
    state: &mut [u8],
    key: &[u8; ADDRESS],
    path: &[u8],
    time: u64,
    mtu: u16,
    values: &mut [u64; 5],
) -> u8
    requires { sound (capacity state.old) (view state.old) ≡ true }
    ensures { Told (call state.old (InsertVerifiedWithPathMtu (address_from key.now) (path_from path.now) time mtu)) result values.new state.new }
{
    let k = address(key);
    let p = path_from(path);
    let answer = verification::calls::insert_verified_with_path_mtu_unchecked(
        state, k, p, time, mtu,
    );
    tell(reply(answer), values)
}

// Lookups: found, length. The elements stand in the state from byte `at` on.
#[tactic(auto, using(crate::proofs::ToldLookups::part_there, crate::proofs::ToldLookups::place_told_lem))]
#[unsafe(no_mangle)]
pub extern "C" fn coord_cache_get_unchecked(
    state: &[u8],
    key: &[u8; ADDRESS],
    time: u64,
    values: &mut [u64; 5],
    at: &mut u64,
) -> u8
    requires { sound (capacity state.now) (view state.now) ≡ true }
    ensures told { Told (call state.now (Get (address_from key.now) time)) result values.new state.now }
    ensures part { PartAt at.new state.now (got_part (address_from key.now) time state.now) }
    ensures place { at.new ≡ place_told result at.old (address_from key.now) time state.now }
{
    let k = address(key);
    let place = lookups::get::get_place(state, k, time);
    *at = place.start as u64;
    tell(replies::part::part_reply(place.end - place.start), values)
}

#[unsafe(no_mangle)]
pub extern "C" fn coord_cache_get_and_touch_unchecked(
    state: &mut [u8],
    key: &[u8; ADDRESS],
    time: u64,
    values: &mut [u64; 5],
    at: &mut u64,
) -> u8
    requires { sound (capacity state.old) (view state.old) ≡ true }
    ensures told { Told (call state.old (GetAndTouch (address_from key.now) time)) result values.new state.new }
    ensures part { PartAt at.new state.new (got_part (address_from key.now) time state.new) }
    ensures place { at.new ≡ place_told result at.old (address_from key.now) time state.new }
{
    let k = address(key);
    let place = lookups::touch::touch_place(state, k, time);
    *at = place.start as u64;
    tell(replies::part::part_reply(place.end - place.start), values)
}

// Found; the bytes of the row that leaves go into `row`.
#[tactic(auto, using(crate::proofs::ToldLookups::removed_told, crate::proofs::ToldLookups::row_told))]
#[unsafe(no_mangle)]
pub extern "C" fn coord_cache_remove_unchecked(
    state: &mut [u8],
    key: &[u8; ADDRESS],
    values: &mut [u64; 5],
    row: &mut [u8; ROW],
) -> u8
    requires { sound (capacity state.old) (view state.old) ≡ true }
    ensures told { Told (call state.old (Remove (address_from key.now))) result values.new state.new }
    ensures row_left { row.new ≡ row_taken (address_from key.now) state.old row.old }
{
    let k = address(key);
    take_row(state, k, row);
    let answer = lookups::remove::remove_unchecked(state, k);
    tell(answer.reply(), values)
}

// Whether the key is held.
#[unsafe(no_mangle)]
pub extern "C" fn coord_cache_demote_unchecked(
    state: &mut [u8],
    key: &[u8; ADDRESS],
    values: &mut [u64; 5],
) -> u8
    requires { sound (capacity state.old) (view state.old) ≡ true }
    ensures { Told (call state.old (Demote (address_from key.now))) result values.new state.new }
{
    let k = address(key);
    let answer = lookups::demote::demote_unchecked(state, k);
    tell(reply(answer), values)
}

#[unsafe(no_mangle)]
pub extern "C" fn coord_cache_clear_path_mtu_unchecked(
    state: &mut [u8],
    key: &[u8; ADDRESS],
    values: &mut [u64; 5],
) -> u8
    requires { sound (capacity state.old) (view state.old) ≡ true }
    ensures { Told (call state.old (ClearPathMtu (address_from key.now))) result values.new state.new }
{
    let k = address(key);
    lookups::path_mtu::clear_path_mtu_unchecked(state, k);
    tell(().reply(), values)
}

// Sweeps: how many rows were removed; clear tells none.
#[unsafe(no_mangle)]
pub extern "C" fn coord_cache_purge_expired_unchecked(
    state: &mut [u8],
    time: u64,
    values: &mut [u64; 5],
) -> u8
    requires { sound (capacity state.old) (view state.old) ≡ true }
    ensures { Told (call state.old (PurgeExpired time)) result values.new state.new }
{
    let answer = sweeps::purge_expired_unchecked(state, time);
    tell(answer.reply(), values)
}

#[unsafe(no_mangle)]
pub extern "C" fn coord_cache_clear_unchecked(state: &mut [u8], values: &mut [u64; 5]) -> u8
    requires { sound (capacity state.old) (view state.old) ≡ true }
    ensures { Told (call state.old Clear) result values.new state.new }
{
    sweeps::clear_unchecked(state);
    tell(().reply(), values)
}

#[unsafe(no_mangle)]
pub extern "C" fn coord_cache_invalidate_via_node_unchecked(
    state: &mut [u8],
    addr: &[u8; ADDRESS],
    values: &mut [u64; 5],
) -> u8
    requires { sound (capacity state.old) (view state.old) ≡ true }
    ensures { Told (call state.old (InvalidateViaNode (address_from addr.now))) result values.new state.new }
{
    let a = address(addr);
    let answer = sweeps::invalidate_via_node_unchecked(state, a);
    tell(answer.reply(), values)
}

#[unsafe(no_mangle)]
pub extern "C" fn coord_cache_invalidate_other_roots_unchecked(
    state: &mut [u8],
    addr: &[u8; ADDRESS],
    values: &mut [u64; 5],
) -> u8
    requires { sound (capacity state.old) (view state.old) ≡ true }
    ensures { Told (call state.old (InvalidateOtherRoots (address_from addr.now))) result values.new state.new }
{
    let a = address(addr);
    let answer = sweeps::invalidate_other_roots_unchecked(state, a);
    tell(answer.reply(), values)
}

// Entries, max, expired, mean age.
#[unsafe(no_mangle)]
pub extern "C" fn coord_cache_stats_unchecked(state: &[u8], time: u64, values: &mut [u64; 5]) -> u8
    requires { sound (capacity state.now) (view state.now) ≡ true }
    ensures { Told (call state.now (Stats time)) result values.new state.now }
{
    let answer = statistics::stats_unchecked(state, time);
    tell(answer.reply(), values)
}

// Whether a row is held, and the smallest expires_at.
#[unsafe(no_mangle)]
pub extern "C" fn coord_cache_next_expiry_unchecked(state: &[u8], values: &mut [u64; 5]) -> u8
    requires { sound (capacity state.now) (view state.now) ≡ true }
    ensures { Told (call state.now NextExpiry) result values.new state.now }
{
    let answer = statistics::next_expiry_unchecked(state);
    tell(answer.reply(), values)
}
