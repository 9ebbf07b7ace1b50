// The calls for a memory in any condition: all but fresh refuse one that is not a sound state by 1, and is_sound only asks. Each is the test
// and then the unchecked call; a funding kind over 1 is refused by 6 before it.
#![tactic(auto, using(crate::proofs::ToldRefusals::refused))]

ghost use Rattle.std.specs.Prelude.{◌≡◌};
ghost use Rattle.rules.specs.Sound.{sound};
ghost use Rattle.rules.specs.Calls.{Insert, InsertWithTtl, InsertFunded, InsertStated, InsertVerified, InsertVerifiedWithPathMtu};
ghost use Rattle.rules.specs.Calls.{Get, GetAndTouch, Remove, Demote, ClearPathMtu, PurgeExpired, Clear, InvalidateViaNode, InvalidateOtherRoots, Stats, NextExpiry};
ghost use Rattle.types.specs.Values.{bit};
ghost use Rattle.rules.specs.Refusals.{Fresh};
ghost use Rattle.rules.specs.Answers.{refusal_of};
ghost use Rattle.rules.specs.Memory.{capacity, view};
ghost use Rattle.rules.specs.Lent.{lent, call, got_part};
ghost use Rattle.boundary.specs.Exported.{address_from, path_from, funded, Told, PartAt, row_taken};
ghost use Rattle.coordcache.specs.Places.{place_told};

use crate::unchecked::{
    coord_cache_clear_path_mtu_unchecked, coord_cache_clear_unchecked,
    coord_cache_demote_unchecked, coord_cache_get_and_touch_unchecked, coord_cache_get_unchecked,
    coord_cache_insert_funded_unchecked, coord_cache_insert_stated_unchecked,
    coord_cache_insert_unchecked, coord_cache_insert_verified_unchecked,
    coord_cache_insert_verified_with_path_mtu_unchecked, coord_cache_insert_with_ttl_unchecked,
    coord_cache_invalidate_other_roots_unchecked, coord_cache_invalidate_via_node_unchecked,
    coord_cache_next_expiry_unchecked, coord_cache_purge_expired_unchecked,
    coord_cache_remove_unchecked, coord_cache_stats_unchecked,
};
use boundary::tell;
use raw::layout::{ADDRESS, ROW};
use types::refusal::Refusal;
use types::reply::Reply;

// 1 if the memory is a sound state, else 0. It is lent by `&`, so that what it is before and after is one value.
#[tactic(auto, using(crate::proofs::ToldReplies::sound_bit))]
#[unsafe(no_mangle)]
pub extern "C" fn coord_cache_is_sound(state: &[u8]) -> u8
    ensures { (result ≡ bit (sound (capacity state.now) (view state.now))) × (state.now ≡ state.now) }
{
    state::check::is_sound(state) as u8
}

#[tactic(auto, unfolding(rules::specs::Answers::refusal_of))]
#[unsafe(no_mangle)]
pub extern "C" fn coord_cache_fresh(state: &mut [u8], max: u64, ttl: u64) -> u8
    ensures { (result ≡ refusal_of (lent state.old (Fresh max ttl)).answer) × (state.new ≡ (lent state.old (Fresh max ttl)).memory) }
{
    match state::fresh::fresh(state, max, ttl) {
        Ok(()) => 0,
        Err(refusal) => u8::from(refusal),
    }
}

// Hints: outcome, added weight, segment, unfunded, examined.
#[unsafe(no_mangle)]
pub extern "C" fn coord_cache_insert(
    state: &mut [u8],
    key: &[u8; ADDRESS],
    path: &[u8],
    time: u64,
    values: &mut [u64; 5],
) -> u8
    ensures { Told (call state.old (Insert (address_from key.now) (path_from path.now) time)) result values.new state.new }
{
    if !state::check::is_sound(state) {
        return tell(Reply::from(Refusal::UnsoundState), values);
    }
    coord_cache_insert_unchecked(state, key, path, time, values)
}

#[unsafe(no_mangle)]
pub extern "C" fn coord_cache_insert_with_ttl(
    state: &mut [u8],
    key: &[u8; ADDRESS],
    path: &[u8],
    time: u64,
    ttl: u64,
    values: &mut [u64; 5],
) -> u8
    ensures { Told (call state.old (InsertWithTtl (address_from key.now) (path_from path.now) time ttl)) result values.new state.new }
{
    if !state::check::is_sound(state) {
        return tell(Reply::from(Refusal::UnsoundState), values);
    }
    coord_cache_insert_with_ttl_unchecked(state, key, path, time, ttl, values)
}

#[unsafe(no_mangle)]
pub extern "C" fn coord_cache_insert_funded(
    state: &mut [u8],
    key: &[u8; ADDRESS],
    path: &[u8],
    time: u64,
    kind: u8,
    amount: u64,
    values: &mut [u64; 5],
) -> u8
    ensures { Told (funded state.old kind amount (InsertFunded (address_from key.now) (path_from path.now) time)) result values.new state.new }
{
    if 1 < kind {
        return tell(Reply::from(Refusal::BadCommand), values);
    }
    if !state::check::is_sound(state) {
        return tell(Reply::from(Refusal::UnsoundState), values);
    }
    coord_cache_insert_funded_unchecked(state, key, path, time, kind, amount, values)
}

#[unsafe(no_mangle)]
pub extern "C" fn coord_cache_insert_stated(
    state: &mut [u8],
    key: &[u8; ADDRESS],
    path: &[u8],
    time: u64,
    kind: u8,
    amount: u64,
    values: &mut [u64; 5],
) -> u8
    ensures { Told (funded state.old kind amount (InsertStated (address_from key.now) (path_from path.now) time)) result values.new state.new }
{
    if 1 < kind {
        return tell(Reply::from(Refusal::BadCommand), values);
    }
    if !state::check::is_sound(state) {
        return tell(Reply::from(Refusal::UnsoundState), values);
    }
    coord_cache_insert_stated_unchecked(state, key, path, time, kind, amount, values)
}

// Verified inserts: 0, weight, 0, 0, examined.
#[unsafe(no_mangle)]
pub extern "C" fn coord_cache_insert_verified(
    state: &mut [u8],
    key: &[u8; ADDRESS],
    path: &[u8],
    time: u64,
    values: &mut [u64; 5],
) -> u8
    ensures { Told (call state.old (InsertVerified (address_from key.now) (path_from path.now) time)) result values.new state.new }
{
    if !state::check::is_sound(state) {
        return tell(Reply::from(Refusal::UnsoundState), values);
    }
    coord_cache_insert_verified_unchecked(state, key, path, time, values)
}

#[unsafe(no_mangle)]
pub extern "C" fn coord_cache_insert_verified_with_path_mtu(
    state: &mut [u8],
    key: &[u8; ADDRESS],
    path: &[u8],
    time: u64,
    mtu: u16,
    values: &mut [u64; 5],
) -> u8
    ensures { Told (call state.old (InsertVerifiedWithPathMtu (address_from key.now) (path_from path.now) time mtu)) result values.new state.new }
{
    if !state::check::is_sound(state) {
        return tell(Reply::from(Refusal::UnsoundState), values);
    }
    coord_cache_insert_verified_with_path_mtu_unchecked(state, key, path, time, mtu, values)
}

// Lookups: found, length. The elements stand in the state from byte `at` on.
#[unsafe(no_mangle)]
pub extern "C" fn coord_cache_get(
    state: &[u8],
    key: &[u8; ADDRESS],
    time: u64,
    values: &mut [u64; 5],
    at: &mut u64,
) -> u8
    ensures told { Told (call state.now (Get (address_from key.now) time)) result values.new state.now }
    ensures part { PartAt at.new state.now (got_part (address_from key.now) time state.now) }
    ensures place { at.new ≡ place_told result at.old (address_from key.now) time state.now }
{
    if !state::check::is_sound(state) {
        return tell(Reply::from(Refusal::UnsoundState), values);
    }
    coord_cache_get_unchecked(state, key, time, values, at)
}

#[unsafe(no_mangle)]
pub extern "C" fn coord_cache_get_and_touch(
    state: &mut [u8],
    key: &[u8; ADDRESS],
    time: u64,
    values: &mut [u64; 5],
    at: &mut u64,
) -> u8
    ensures told { Told (call state.old (GetAndTouch (address_from key.now) time)) result values.new state.new }
    ensures part { PartAt at.new state.new (got_part (address_from key.now) time state.new) }
    ensures place { at.new ≡ place_told result at.old (address_from key.now) time state.new }
{
    if !state::check::is_sound(state) {
        return tell(Reply::from(Refusal::UnsoundState), values);
    }
    coord_cache_get_and_touch_unchecked(state, key, time, values, at)
}

// Found; the bytes of the row that leaves go into `row`.
#[unsafe(no_mangle)]
pub extern "C" fn coord_cache_remove(
    state: &mut [u8],
    key: &[u8; ADDRESS],
    values: &mut [u64; 5],
    row: &mut [u8; ROW],
) -> u8
    ensures told { Told (call state.old (Remove (address_from key.now))) result values.new state.new }
    ensures row_left { row.new ≡ row_taken (address_from key.now) state.old row.old }
{
    if !state::check::is_sound(state) {
        return tell(Reply::from(Refusal::UnsoundState), values);
    }
    coord_cache_remove_unchecked(state, key, values, row)
}

// Whether the key is held.
#[unsafe(no_mangle)]
pub extern "C" fn coord_cache_demote(
    state: &mut [u8],
    key: &[u8; ADDRESS],
    values: &mut [u64; 5],
) -> u8
    ensures { Told (call state.old (Demote (address_from key.now))) result values.new state.new }
{
    if !state::check::is_sound(state) {
        return tell(Reply::from(Refusal::UnsoundState), values);
    }
    coord_cache_demote_unchecked(state, key, values)
}

#[unsafe(no_mangle)]
pub extern "C" fn coord_cache_clear_path_mtu(
    state: &mut [u8],
    key: &[u8; ADDRESS],
    values: &mut [u64; 5],
) -> u8
    ensures { Told (call state.old (ClearPathMtu (address_from key.now))) result values.new state.new }
{
    if !state::check::is_sound(state) {
        return tell(Reply::from(Refusal::UnsoundState), values);
    }
    coord_cache_clear_path_mtu_unchecked(state, key, values)
}

// Sweeps: how many rows were removed; clear tells none.
#[unsafe(no_mangle)]
pub extern "C" fn coord_cache_purge_expired(
    state: &mut [u8],
    time: u64,
    values: &mut [u64; 5],
) -> u8
    ensures { Told (call state.old (PurgeExpired time)) result values.new state.new }
{
    if !state::check::is_sound(state) {
        return tell(Reply::from(Refusal::UnsoundState), values);
    }
    coord_cache_purge_expired_unchecked(state, time, values)
}

#[unsafe(no_mangle)]
pub extern "C" fn coord_cache_clear(state: &mut [u8], values: &mut [u64; 5]) -> u8
    ensures { Told (call state.old Clear) result values.new state.new }
{
    if !state::check::is_sound(state) {
        return tell(Reply::from(Refusal::UnsoundState), values);
    }
    coord_cache_clear_unchecked(state, values)
}

#[unsafe(no_mangle)]
pub extern "C" fn coord_cache_invalidate_via_node(
    state: &mut [u8],
    addr: &[u8; ADDRESS],
    values: &mut [u64; 5],
) -> u8
    ensures { Told (call state.old (InvalidateViaNode (address_from addr.now))) result values.new state.new }
{
    if !state::check::is_sound(state) {
        return tell(Reply::from(Refusal::UnsoundState), values);
    }
    coord_cache_invalidate_via_node_unchecked(state, addr, values)
}

#[unsafe(no_mangle)]
pub extern "C" fn coord_cache_invalidate_other_roots(
    state: &mut [u8],
    addr: &[u8; ADDRESS],
    values: &mut [u64; 5],
) -> u8
    ensures { Told (call state.old (InvalidateOtherRoots (address_from addr.now))) result values.new state.new }
{
    if !state::check::is_sound(state) {
        return tell(Reply::from(Refusal::UnsoundState), values);
    }
    coord_cache_invalidate_other_roots_unchecked(state, addr, values)
}

// Entries, max, expired, mean age.
#[unsafe(no_mangle)]
pub extern "C" fn coord_cache_stats(state: &[u8], time: u64, values: &mut [u64; 5]) -> u8
    ensures { Told (call state.now (Stats time)) result values.new state.now }
{
    if !state::check::is_sound(state) {
        return tell(Reply::from(Refusal::UnsoundState), values);
    }
    coord_cache_stats_unchecked(state, time, values)
}

// Whether a row is held, and the smallest expires_at.
#[unsafe(no_mangle)]
pub extern "C" fn coord_cache_next_expiry(state: &[u8], values: &mut [u64; 5]) -> u8
    ensures { Told (call state.now NextExpiry) result values.new state.now }
{
    if !state::check::is_sound(state) {
        return tell(Reply::from(Refusal::UnsoundState), values);
    }
    coord_cache_next_expiry_unchecked(state, values)
}
