// An entry by value, as the calls make it (the original's entry.rs).
#![tactic(auto, unfolding(crate::specs::NewEntries::entry_from, rules::specs::Entries::new_entry, rules::specs::Entries::update, rules::specs::Entries::mark_verified, rules::specs::Entries::set_mtu))]

ghost use Rattle.std.specs.Prelude.{◌≡◌};
ghost use Rattle.rules.specs.Entries.{new_entry, update, mark_verified, set_mtu};
ghost use Rattle.entries.specs.NewEntries.{entry_from};

use crate::times::{VERIFIED_TTL_MS, add_times};
use memory::codes::{HINT, NO_MTU, SOME_MTU, VERIFIED};
use memory::row::Row;
use types::coord::Path;

#[derive(Clone, Copy)]
pub struct NewEntry {
    pub path: Path,
    pub created_at: u64,
    pub last_used: u64,
    pub expires_at: u64,
    pub mtu_mark: u8,
    pub mtu: u16,
    pub source: u8,
    pub verified_until: u64,
}

pub fn new_entry(path: Path, time: u64, ttl: u64) -> NewEntry
    ensures { (entry_from result ≡ new_entry path time ttl) × (result.path ≡ path) }
{
    let expires = add_times(time, ttl);
    NewEntry {
        path: path,
        created_at: time,
        last_used: time,
        expires_at: expires,
        mtu_mark: NO_MTU,
        mtu: 0,
        source: HINT,
        verified_until: 0,
    }
}

// A row's entry, updated: created_at and MTU are kept.
pub fn updated_entry(row: &Row<'_>, path: Path, time: u64, ttl: u64) -> NewEntry
    ensures { (entry_from result ≡ update path time ttl row.now.entry) × (result.path ≡ path) }
{
    let created = row.created_at();
    let mark = row.mtu_mark();
    let mtu = row.mtu();
    let expires = add_times(time, ttl);
    NewEntry {
        path: path,
        created_at: created,
        last_used: time,
        expires_at: expires,
        mtu_mark: mark,
        mtu: mtu,
        source: HINT,
        verified_until: 0,
    }
}

pub fn verified_entry(e: NewEntry, time: u64) -> NewEntry
    ensures { (entry_from result ≡ mark_verified time (entry_from e)) × (result.path ≡ e.path) }
{
    let mut v = e;
    v.source = VERIFIED;
    v.verified_until = add_times(time, VERIFIED_TTL_MS);
    v
}

pub fn with_mtu(e: NewEntry, mtu: u16) -> NewEntry
    ensures { (entry_from result ≡ set_mtu mtu (entry_from e)) × (result.path ≡ e.path) }
{
    let mut m = e;
    m.mtu_mark = SOME_MTU;
    m.mtu = mtu;
    m
}
