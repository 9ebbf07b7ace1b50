// insert_verified, and its form with a path MTU. Each stands twice: unchecked, on a memory known to be sound, and public.
ghost use Rattle.std.specs.Prelude.{◌≡◌, true};
ghost use Rattle.rules.specs.Sound.{sound};
ghost use Rattle.rules.specs.Calls.{VerifiedDone, InsertVerified, InsertVerifiedWithPathMtu};
ghost use Rattle.rules.specs.Answers.{said};
ghost use Rattle.rules.specs.Memory.{capacity, view};
ghost use Rattle.rules.specs.Lent.{call};
ghost use Rattle.verification.specs.Forms.{verified_call};

use crate::insert::file_verified;
use crate::no_place::no_place_for;
use refusals::write::write_refusal;
use search::keys::search;
use state::check::check_sound;
use types::coord::Path;
use types::node_addr::NodeAddr;
use types::placed::VerifiedInsert;
use types::refusal::Refusal;

// Both forms: refused by 2, 3 or 4, or done.
#[tactic(auto, using(refusals::proofs::SoundCalls::head_there, refusals::proofs::WriteRefusals::passed, crate::proofs::VerifiedCalls::rows_sound_lem, crate::proofs::VerifiedCalls::refused_by_four, crate::proofs::VerifiedCalls::insert_asked))]
fn verify(
    state: &mut [u8],
    key: NodeAddr,
    path: Path,
    time: u64,
    mtu: Option<u16>,
) -> Result<VerifiedInsert, Refusal>
    requires { sound (capacity state.old) (view state.old) ≡ true }
    ensures { (said VerifiedDone result ≡ (call state.old (verified_call key path time mtu)).answer) × (state.new ≡ (call state.old (verified_call key path time mtu)).memory) }
{
    write_refusal(state, path)?;
    let n = memory::head::row_count(state) as usize;
    let at = search(state, n, key);
    if no_place_for(state, n, at, key, path, time) {
        return Err(Refusal::NoPlace);
    }
    Ok(file_verified(state, n, at, key, path, time, mtu))
}

pub fn insert_verified_unchecked(
    state: &mut [u8],
    key: NodeAddr,
    path: Path,
    time: u64,
) -> Result<VerifiedInsert, Refusal>
    requires { sound (capacity state.old) (view state.old) ≡ true }
    ensures { (said VerifiedDone result ≡ (call state.old (InsertVerified key path time)).answer) × (state.new ≡ (call state.old (InsertVerified key path time)).memory) }
{
    verify(state, key, path, time, None)
}

#[tactic(auto, using(refusals::proofs::RefusalsSaid::unsound_told))]
pub fn insert_verified(
    state: &mut [u8],
    key: NodeAddr,
    path: Path,
    time: u64,
) -> Result<VerifiedInsert, Refusal>
    ensures { (said VerifiedDone result ≡ (call state.old (InsertVerified key path time)).answer) × (state.new ≡ (call state.old (InsertVerified key path time)).memory) }
{
    check_sound(state)?;
    insert_verified_unchecked(state, key, path, time)
}

pub fn insert_verified_with_path_mtu_unchecked(
    state: &mut [u8],
    key: NodeAddr,
    path: Path,
    time: u64,
    mtu: u16,
) -> Result<VerifiedInsert, Refusal>
    requires { sound (capacity state.old) (view state.old) ≡ true }
    ensures { (said VerifiedDone result ≡ (call state.old (InsertVerifiedWithPathMtu key path time mtu)).answer) × (state.new ≡ (call state.old (InsertVerifiedWithPathMtu key path time mtu)).memory) }
{
    verify(state, key, path, time, Some(mtu))
}

#[tactic(auto, using(refusals::proofs::RefusalsSaid::unsound_told))]
pub fn insert_verified_with_path_mtu(
    state: &mut [u8],
    key: NodeAddr,
    path: Path,
    time: u64,
    mtu: u16,
) -> Result<VerifiedInsert, Refusal>
    ensures { (said VerifiedDone result ≡ (call state.old (InsertVerifiedWithPathMtu key path time mtu)).answer) × (state.new ≡ (call state.old (InsertVerifiedWithPathMtu key path time mtu)).memory) }
{
    check_sound(state)?;
    insert_verified_with_path_mtu_unchecked(state, key, path, time, mtu)
}
