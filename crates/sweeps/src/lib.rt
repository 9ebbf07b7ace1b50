// The calls that sweep: purge_expired, invalidate_via_node, invalidate_other_roots, clear.
#![tactic(auto, using(refusals::proofs::SoundCalls::head_there))]

ghost use Rattle.std.specs.Prelude.{◌≡◌, Bool, true, ◌-◌};
ghost use Rattle.std.specs.Fn.{FnReturnsAt};
ghost use Rattle.rules.specs.Records.{Entry};
ghost use Rattle.rules.specs.Sound.{sound};
ghost use Rattle.rules.specs.Calls.{Call, Clear, PurgeExpired, InvalidateViaNode, InvalidateOtherRoots, RowsRemoved, Done};
ghost use Rattle.rules.specs.Answers.{said, done};
ghost use Rattle.rules.specs.Memory.{capacity, view};
ghost use Rattle.rules.specs.Lent.{call};
ghost use Rattle.retention.specs.Sweep.{PathFit, Tests};
ghost use Rattle.sweeps.specs.Sweeping.{Sweeps};

use entries::path::{path_contains, root_is};
use entries::times::is_expired;
use memory::row::Row;
use retention::rows::retain_entries;
use state::check::check_sound;
use types::node_addr::NodeAddr;
use types::refusal::Refusal;

pub fn clear_unchecked(state: &mut [u8])
    requires { sound (capacity state.old) (view state.old) ≡ true }
    ensures { (Done ≡ (call state.old Clear).answer) × (state.new ≡ (call state.old Clear).memory) }
{
    let n = memory::head::row_count(state) as usize;
    memory::rows::shrink(state, n, 0, 0);
}

// Of a sweep, the rows that leave; how many they are.
fn sweep<F: Fn(&Row<'_>) -> bool>(state: &mut [u8], leaves: F) -> u64
    requires is_sound { sound (capacity state.old) (view state.old) ≡ true }
    requires callable { (row : _) → PathFit row.now → F.pre leaves row }
    ensures { (q : Call) (test : Entry → Bool) → Sweeps q test → Tests (FnReturnsAt F.Fn leaves) (λ r. test r.entry) → (RowsRemoved result ≡ (call state.old q).answer) × (state.new ≡ (call state.old q).memory) }
{
    let n = memory::head::row_count(state) as usize;
    let kept = retain_entries(state, n, leaves);
    (n - kept) as u64
}

pub fn purge_expired_unchecked(state: &mut [u8], time: u64) -> u64
    requires { sound (capacity state.old) (view state.old) ≡ true }
    ensures { (RowsRemoved result ≡ (call state.old (PurgeExpired time)).answer) × (state.new ≡ (call state.old (PurgeExpired time)).memory) }
{
    sweep(state, |row| is_expired(row, time))
}

pub fn invalidate_via_node_unchecked(state: &mut [u8], addr: NodeAddr) -> u64
    requires { sound (capacity state.old) (view state.old) ≡ true }
    ensures { (RowsRemoved result ≡ (call state.old (InvalidateViaNode addr)).answer) × (state.new ≡ (call state.old (InvalidateViaNode addr)).memory) }
{
    sweep(state, |row| path_contains(row, addr))
}

pub fn invalidate_other_roots_unchecked(state: &mut [u8], addr: NodeAddr) -> u64
    requires { sound (capacity state.old) (view state.old) ≡ true }
    ensures { (RowsRemoved result ≡ (call state.old (InvalidateOtherRoots addr)).answer) × (state.new ≡ (call state.old (InvalidateOtherRoots addr)).memory) }
{
    sweep(state, |row| !root_is(row, addr))
}

#[tactic(auto, using(refusals::proofs::RefusalsSaid::unsound_told))]
pub fn clear(state: &mut [u8]) -> Result<(), Refusal>
    ensures { (said done result ≡ (call state.old Clear).answer) × (state.new ≡ (call state.old Clear).memory) }
{
    check_sound(state)?;
    clear_unchecked(state);
    Ok(())
}

#[tactic(auto, using(refusals::proofs::RefusalsSaid::unsound_told))]
pub fn purge_expired(state: &mut [u8], time: u64) -> Result<u64, Refusal>
    ensures { (said RowsRemoved result ≡ (call state.old (PurgeExpired time)).answer) × (state.new ≡ (call state.old (PurgeExpired time)).memory) }
{
    check_sound(state)?;
    Ok(purge_expired_unchecked(state, time))
}

#[tactic(auto, using(refusals::proofs::RefusalsSaid::unsound_told))]
pub fn invalidate_via_node(state: &mut [u8], addr: NodeAddr) -> Result<u64, Refusal>
    ensures { (said RowsRemoved result ≡ (call state.old (InvalidateViaNode addr)).answer) × (state.new ≡ (call state.old (InvalidateViaNode addr)).memory) }
{
    check_sound(state)?;
    Ok(invalidate_via_node_unchecked(state, addr))
}

#[tactic(auto, using(refusals::proofs::RefusalsSaid::unsound_told))]
pub fn invalidate_other_roots(state: &mut [u8], addr: NodeAddr) -> Result<u64, Refusal>
    ensures { (said RowsRemoved result ≡ (call state.old (InvalidateOtherRoots addr)).answer) × (state.new ≡ (call state.old (InvalidateOtherRoots addr)).memory) }
{
    check_sound(state)?;
    Ok(invalidate_other_roots_unchecked(state, addr))
}
