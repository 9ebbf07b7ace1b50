// remove.
ghost use Rattle.std.specs.Prelude.{◌≡◌, true, ◌-◌};
ghost use Rattle.rules.specs.Sound.{sound};
ghost use Rattle.rules.specs.Calls.{Remove, EntryRemoved};
ghost use Rattle.rules.specs.Answers.{said};
ghost use Rattle.rules.specs.Memory.{capacity, view};
ghost use Rattle.rules.specs.Lent.{call};

use memory::row::row_at;
use state::check::check_sound;
use types::entry::CacheEntry;
use types::node_addr::NodeAddr;
use types::refusal::Refusal;

pub fn remove_unchecked(state: &mut [u8], key: NodeAddr) -> Option<CacheEntry>
    requires { sound (capacity state.old) (view state.old) ≡ true }
    ensures { (EntryRemoved result ≡ (call state.old (Remove key)).answer) × (state.new ≡ (call state.old (Remove key)).memory) }
{
    let n = memory::head::row_count(state) as usize;
    let at = search::keys::search(state, n, key);
    match at {
        Ok(i) => {
            let entry = entries::entry::load_entry(&row_at(state, n, i));
            memory::rows::remove_row(state, n, i);
            Some(entry)
        }
        Err(_) => None,
    }
}

#[tactic(auto, using(refusals::proofs::RefusalsSaid::unsound_told))]
pub fn remove(state: &mut [u8], key: NodeAddr) -> Result<Option<CacheEntry>, Refusal>
    ensures { (said EntryRemoved result ≡ (call state.old (Remove key)).answer) × (state.new ≡ (call state.old (Remove key)).memory) }
{
    check_sound(state)?;
    Ok(remove_unchecked(state, key))
}
