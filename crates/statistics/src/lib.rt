// stats, and the next expiry.
#![tactic(auto)]

ghost use Rattle.std.specs.Prelude.{◌≡◌, true, ◌+◌, ◌*◌, ◌-◌, ◌≤◌, length};
ghost use Rattle.rules.specs.Rows.{count_rows};
ghost use Rattle.rules.specs.Entries.{expired};
ghost use Rattle.rules.specs.Statistics.{total_age, mean, stats, next_expiry};
ghost use Rattle.rules.specs.Sound.{sound};
ghost use Rattle.rules.specs.Memory.{capacity, view_rows, view};
ghost use Rattle.rules.specs.Lent.{call};
ghost use Rattle.rules.specs.Calls.{Stats, NextExpiry, StatsGiven, ExpiryGiven};
ghost use Rattle.rules.specs.Answers.{said};
ghost use Rattle.rules.specs.Layout.{head_size, row_size};
ghost use Rattle.rules.specs.Records.{max_rows};
ghost use Rattle.types.specs.Values.{largest_number};

use entries::times::is_expired;
use memory::row::{Row, Rows};
use state::check::check_sound;
use types::refusal::Refusal;
use types::reply::LARGEST_NUMBER;
use types::stats::CacheStats;

// What one pass over the rows adds up: those that are expired, and the ages of all.
#[derive(Clone, Copy)]
struct Totals {
    expired: u64,
    age: u128,
}

// max(now − created_at, 0)
fn age(row: &Row<'_>, time: u64) -> u64
    ensures { result ≡ time - row.now.entry.created_at }
{
    time.saturating_sub(row.created_at())
}

// Each row adds 0 or 1 to those that are expired, so that no branch hangs on it. The sum of the ages can pass 2^64.
#[tactic(auto, unfolding(rules::specs::Rows::count_rows, rules::specs::Rows::total, rules::specs::Statistics::total_age))]
fn add_up(state: &[u8], n: usize, time: u64) -> Totals
    requires { (n ≤ max_rows) × (head_size + n * row_size ≤ length state.now) }
    ensures expired { result.expired ≡ count_rows (λ x. expired time x.entry) (view_rows n state.now).rows }
    ensures age { result.age ≡ total_age time (view_rows n state.now).rows }
    ensures fits { result.age ≤ n * largest_number }
{
    let mut expired: u64 = 0;
    let mut total: u128 = 0;
    for row in Rows::of(state, n) {
        expired += is_expired(&row, time) as u64;
        total += age(&row, time) as u128;
    }
    Totals {
        expired,
        age: total,
    }
}

// Two to the 32nd.
const HALF: u64 = 0x1_0000_0000;

// The exact mean of n numbers of 64 bits whose sum this is, rounded down; 0 of none. A sum past 2^64 is divided by its high part and
// its low half: a division of 128 bits would be a function that the library asks of its surroundings.
#[tactic(auto, using(crate::proofs::Means::mean_fits, crate::proofs::Means::mean_of), unfolding(rules::specs::Statistics::mean))]
fn mean(total: u128, n: usize) -> u64
    requires few { n ≤ max_rows }
    requires fits { total ≤ n * largest_number }
    ensures { result ≡ mean total n }
{
    if n == 0 {
        return 0;
    }
    let count = n as u64;
    if total <= LARGEST_NUMBER as u128 {
        return total as u64 / count;
    }
    let high = (total / HALF as u128) as u64;
    let low = (total % HALF as u128) as u64;
    let rest = high % count * HALF + low;
    high / count * HALF + rest / count
}

// Statistics of n rows.
#[tactic(auto, using(rules::proofs::Foreign::view_length, memory::proofs::Fields::same_head), unfolding(rules::specs::Statistics::stats, rules::specs::Lookups::matching))]
fn stats_of(state: &[u8], n: usize, time: u64) -> CacheStats
    requires { (n ≤ max_rows) × (head_size + n * row_size ≤ length state.now) }
    ensures { result ≡ stats time (view_rows n state.now) }
{
    let max = memory::head::max_entries(state);
    let totals = add_up(state, n, time);
    CacheStats {
        entries: n as u64,
        max_entries: max,
        expired: totals.expired,
        avg_age_ms: mean(totals.age, n),
    }
}

// The smallest expires_at of n rows.
fn next_expiry_of(state: &[u8], n: usize) -> Option<u64>
    requires { head_size + n * row_size ≤ length state.now }
    ensures { result ≡ next_expiry (view_rows n state.now).rows }
{
    Rows::of(state, n).map(|row| row.expires_at()).min()
}

#[tactic(auto, using(rules::proofs::MemoryLaws::all_bytes, refusals::proofs::SoundCalls::head_there, crate::proofs::StatisticsCalls::stats_done))]
pub fn stats_unchecked(state: &[u8], time: u64) -> CacheStats
    requires { sound (capacity state.now) (view state.now) ≡ true }
    ensures { (StatsGiven result ≡ (call state.now (Stats time)).answer) × (state.now ≡ (call state.now (Stats time)).memory) }
{
    let n = memory::head::row_count(state) as usize;
    stats_of(state, n, time)
}

#[tactic(auto, using(rules::proofs::MemoryLaws::all_bytes, refusals::proofs::SoundCalls::head_there, crate::proofs::StatisticsCalls::expiry_done))]
pub fn next_expiry_unchecked(state: &[u8]) -> Option<u64>
    requires { sound (capacity state.now) (view state.now) ≡ true }
    ensures { (ExpiryGiven result ≡ (call state.now NextExpiry).answer) × (state.now ≡ (call state.now NextExpiry).memory) }
{
    let n = memory::head::row_count(state) as usize;
    next_expiry_of(state, n)
}

#[tactic(auto, using(refusals::proofs::RefusalsSaid::unsound_told))]
pub fn stats(state: &[u8], time: u64) -> Result<CacheStats, Refusal>
    ensures { (said StatsGiven result ≡ (call state.now (Stats time)).answer) × (state.now ≡ (call state.now (Stats time)).memory) }
{
    check_sound(state)?;
    Ok(stats_unchecked(state, time))
}

#[tactic(auto, using(refusals::proofs::RefusalsSaid::unsound_told))]
pub fn next_expiry(state: &[u8]) -> Result<Option<u64>, Refusal>
    ensures { (said ExpiryGiven result ≡ (call state.now NextExpiry).answer) × (state.now ≡ (call state.now NextExpiry).memory) }
{
    check_sound(state)?;
    Ok(next_expiry_unchecked(state))
}
