// The entry of a row, by value.
#![tactic(auto, unfolding(rules::specs::Records::entry_value, types::specs::Values::source_of))]

ghost use Rattle.std.specs.Prelude.{◌≡◌};
ghost use Rattle.rules.specs.Records.{entry_value};

use crate::path;
use memory::codes::SOME_MTU;
use memory::row::Row;
use types::entry::{CacheEntry, CoordSource};

// The MTU, where the mark says that one is held.
fn path_mtu(row: &Row<'_>) -> Option<u16>
    ensures { result ≡ (entry_value row.now.entry).path_mtu }
{
    if row.mtu_mark() == SOME_MTU {
        Some(row.mtu())
    } else {
        None
    }
}

pub fn load_entry(row: &Row<'_>) -> CacheEntry
    ensures { result ≡ entry_value row.now.entry }
{
    CacheEntry {
        path: path::load_path(row),
        created_at: row.created_at(),
        last_used: row.last_used(),
        expires_at: row.expires_at(),
        path_mtu: path_mtu(row),
        source: CoordSource::from(row.source()),
        verified_until: row.verified_until(),
    }
}
