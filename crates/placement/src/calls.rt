// insert, insert_with_ttl, insert_funded and insert_stated. Each stands twice: unchecked, on a memory known to be sound,
// and public.
ghost use Rattle.std.specs.Prelude.{◌≡◌, true};
ghost use Rattle.rules.specs.Sound.{sound};
ghost use Rattle.rules.specs.Calls.{Hinted, Insert, InsertWithTtl, InsertFunded, InsertStated};
ghost use Rattle.rules.specs.Answers.{said};
ghost use Rattle.rules.specs.Memory.{capacity, view};
ghost use Rattle.rules.specs.Lent.{call};

use crate::hint::place_hint;
use state::check::check_sound;
use types::coord::Path;
use types::node_addr::NodeAddr;
use types::placed::{Funding, Placed};
use types::refusal::Refusal;

#[tactic(auto, using(refusals::proofs::SoundCalls::head_there, crate::proofs::HintCalls::inserts, crate::proofs::HintCalls::shown_ttl))]
pub fn insert_unchecked(
    state: &mut [u8],
    key: NodeAddr,
    path: Path,
    time: u64,
) -> Result<Placed, Refusal>
    requires { sound (capacity state.old) (view state.old) ≡ true }
    ensures { (said Hinted result ≡ (call state.old (Insert key path time)).answer) × (state.new ≡ (call state.old (Insert key path time)).memory) }
{
    let default_ttl = memory::head::default_ttl(state);
    place_hint(
        state,
        key,
        &path,
        time,
        default_ttl,
        Funding::Uncharged,
        false,
    )
}

#[tactic(auto, using(refusals::proofs::RefusalsSaid::unsound_told))]
pub fn insert(state: &mut [u8], key: NodeAddr, path: Path, time: u64) -> Result<Placed, Refusal>
    ensures { (said Hinted result ≡ (call state.old (Insert key path time)).answer) × (state.new ≡ (call state.old (Insert key path time)).memory) }
{
    check_sound(state)?;
    insert_unchecked(state, key, path, time)
}

#[tactic(auto, using(crate::proofs::HintCalls::inserts_with_ttl))]
pub fn insert_with_ttl_unchecked(
    state: &mut [u8],
    key: NodeAddr,
    path: Path,
    time: u64,
    ttl: u64,
) -> Result<Placed, Refusal>
    requires { sound (capacity state.old) (view state.old) ≡ true }
    ensures { (said Hinted result ≡ (call state.old (InsertWithTtl key path time ttl)).answer) × (state.new ≡ (call state.old (InsertWithTtl key path time ttl)).memory) }
{
    place_hint(state, key, &path, time, ttl, Funding::Uncharged, false)
}

#[tactic(auto, using(refusals::proofs::RefusalsSaid::unsound_told))]
pub fn insert_with_ttl(
    state: &mut [u8],
    key: NodeAddr,
    path: Path,
    time: u64,
    ttl: u64,
) -> Result<Placed, Refusal>
    ensures { (said Hinted result ≡ (call state.old (InsertWithTtl key path time ttl)).answer) × (state.new ≡ (call state.old (InsertWithTtl key path time ttl)).memory) }
{
    check_sound(state)?;
    insert_with_ttl_unchecked(state, key, path, time, ttl)
}

#[tactic(auto, using(refusals::proofs::SoundCalls::head_there, crate::proofs::HintCalls::inserts_funded, crate::proofs::HintCalls::shown_ttl))]
pub fn insert_funded_unchecked(
    state: &mut [u8],
    key: NodeAddr,
    path: Path,
    time: u64,
    funding: Funding,
) -> Result<Placed, Refusal>
    requires { sound (capacity state.old) (view state.old) ≡ true }
    ensures { (said Hinted result ≡ (call state.old (InsertFunded key path time funding)).answer) × (state.new ≡ (call state.old (InsertFunded key path time funding)).memory) }
{
    let default_ttl = memory::head::default_ttl(state);
    place_hint(state, key, &path, time, default_ttl, funding, false)
}

#[tactic(auto, using(refusals::proofs::RefusalsSaid::unsound_told))]
pub fn insert_funded(
    state: &mut [u8],
    key: NodeAddr,
    path: Path,
    time: u64,
    funding: Funding,
) -> Result<Placed, Refusal>
    ensures { (said Hinted result ≡ (call state.old (InsertFunded key path time funding)).answer) × (state.new ≡ (call state.old (InsertFunded key path time funding)).memory) }
{
    check_sound(state)?;
    insert_funded_unchecked(state, key, path, time, funding)
}

// Stated: the path's first address is the key.
#[tactic(auto, using(refusals::proofs::SoundCalls::head_there, crate::proofs::HintCalls::inserts_stated, crate::proofs::HintCalls::shown_ttl))]
pub fn insert_stated_unchecked(
    state: &mut [u8],
    key: NodeAddr,
    path: Path,
    time: u64,
    funding: Funding,
) -> Result<Placed, Refusal>
    requires { sound (capacity state.old) (view state.old) ≡ true }
    ensures { (said Hinted result ≡ (call state.old (InsertStated key path time funding)).answer) × (state.new ≡ (call state.old (InsertStated key path time funding)).memory) }
{
    let default_ttl = memory::head::default_ttl(state);
    let stated = path.starts_at(key);
    place_hint(state, key, &path, time, default_ttl, funding, stated)
}

#[tactic(auto, using(refusals::proofs::RefusalsSaid::unsound_told))]
pub fn insert_stated(
    state: &mut [u8],
    key: NodeAddr,
    path: Path,
    time: u64,
    funding: Funding,
) -> Result<Placed, Refusal>
    ensures { (said Hinted result ≡ (call state.old (InsertStated key path time funding)).answer) × (state.new ≡ (call state.old (InsertStated key path time funding)).memory) }
{
    check_sound(state)?;
    insert_stated_unchecked(state, key, path, time, funding)
}
