// An entry where it stands in a row: whether it is expired, and whether it is verified; sums of times.
#![tactic(auto, unfolding(rules::specs::Entries::expired, rules::specs::Entries::add_times, rules::specs::Entries::verified))]

ghost use Rattle.std.specs.Prelude.{◌≡◌};
ghost use Rattle.rules.specs.Entries.{expired, add_times, verified};

use memory::codes::VERIFIED;
use memory::row::Row;

// How long a verified entry outranks a hint, in milliseconds.
pub const VERIFIED_TTL_MS: u64 = 300000;

// Whether the entry is expired: now > expires_at.
pub fn is_expired(row: &Row<'_>, time: u64) -> bool
    ensures { result ≡ expired time row.now.entry }
{
    row.expires_at() < time
}

// A sum of times, which stops at 2^64 − 1.
pub fn add_times(a: u64, b: u64) -> u64
    ensures { result ≡ add_times a b }
{
    a.saturating_add(b)
}

// Source Verified, and now ≤ verified_until.
pub fn is_verified(row: &Row<'_>, time: u64) -> bool
    ensures { result ≡ verified time row.now.entry }
{
    (row.source() == VERIFIED) & (time <= row.verified_until())
}
