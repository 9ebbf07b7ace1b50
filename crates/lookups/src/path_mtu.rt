// clear_path_mtu.
ghost use Rattle.std.specs.Prelude.{◌≡◌, true, ◌-◌};
ghost use Rattle.rules.specs.Sound.{sound};
ghost use Rattle.rules.specs.Calls.{ClearPathMtu, Done};
ghost use Rattle.rules.specs.Answers.{said, done};
ghost use Rattle.rules.specs.Memory.{capacity, view};
ghost use Rattle.rules.specs.Lent.{call};

use state::check::check_sound;
use types::node_addr::NodeAddr;
use types::refusal::Refusal;

pub fn clear_path_mtu_unchecked(state: &mut [u8], key: NodeAddr)
    requires { sound (capacity state.old) (view state.old) ≡ true }
    ensures { (Done ≡ (call state.old (ClearPathMtu key)).answer) × (state.new ≡ (call state.old (ClearPathMtu key)).memory) }
{
    let n = memory::head::row_count(state) as usize;
    let at = search::keys::search(state, n, key);
    match at {
        Ok(i) => memory::row::drop_mtu(state, n, i),
        Err(_) => {}
    }
}

#[tactic(auto, using(refusals::proofs::RefusalsSaid::unsound_told))]
pub fn clear_path_mtu(state: &mut [u8], key: NodeAddr) -> Result<(), Refusal>
    ensures { (said done result ≡ (call state.old (ClearPathMtu key)).answer) × (state.new ≡ (call state.old (ClearPathMtu key)).memory) }
{
    check_sound(state)?;
    clear_path_mtu_unchecked(state, key);
    Ok(())
}
