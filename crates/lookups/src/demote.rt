// demote.
ghost use Rattle.std.specs.Prelude.{◌≡◌, true, ◌+◌, ◌*◌, ◌-◌, ◌≤◌, ◌<◌, length};
ghost use Rattle.rules.specs.Sound.{sound};
ghost use Rattle.rules.specs.Calls.{Demote, KeyHeld};
ghost use Rattle.rules.specs.Answers.{said};
ghost use Rattle.rules.specs.Memory.{capacity, view_rows, view};
ghost use Rattle.rules.specs.Lent.{call};
ghost use Rattle.rules.specs.Layout.{head_size, row_size};
ghost use Rattle.lookups.specs.KeyedSteps.{demoted_at};
ghost use Rattle.types.specs.Values.{largest_number};

use memory::row::row_at;
use state::check::check_sound;
use types::node_addr::NodeAddr;
use types::refusal::Refusal;

// Row i's entry becomes a hint; a parked row is refiled.
#[tactic(auto, using(crate::proofs::DemotedRows::demoted_parked, crate::proofs::DemotedRows::demoted_in_place, crate::proofs::DemotedRows::hinted_seq))]
fn demote_at(state: &mut [u8], n: usize, i: usize)
    requires { (i < n) × (head_size + n * row_size ≤ length state.old) × ((view_rows n state.old).seq < largest_number) }
    ensures { view_rows n state.new ≡ demoted_at i (view_rows n state.old) }
{
    let place = row_at(state, n, i).place();
    memory::row::mark_hint(state, n, i);
    if place == memory::codes::PARKED {
        stamps::row::restamp(state, n, i);
    }
}

#[tactic(auto, using(crate::proofs::KeyRows::key_row, crate::proofs::DemotedRows::stamp_left))]
pub fn demote_unchecked(state: &mut [u8], key: NodeAddr) -> Result<bool, Refusal>
    requires { sound (capacity state.old) (view state.old) ≡ true }
    ensures { (said KeyHeld result ≡ (call state.old (Demote key)).answer) × (state.new ≡ (call state.old (Demote key)).memory) }
{
    if refusals::write::LAST_SEQ < memory::head::seq(state) {
        return Err(Refusal::StampsSpent);
    }
    let n = memory::head::row_count(state) as usize;
    let at = search::keys::search(state, n, key);
    match at {
        Ok(i) => {
            demote_at(state, n, i);
            Ok(true)
        }
        Err(_) => Ok(false),
    }
}

#[tactic(auto, using(refusals::proofs::RefusalsSaid::unsound_told))]
pub fn demote(state: &mut [u8], key: NodeAddr) -> Result<bool, Refusal>
    ensures { (said KeyHeld result ≡ (call state.old (Demote key)).answer) × (state.new ≡ (call state.old (Demote key)).memory) }
{
    check_sound(state)?;
    demote_unchecked(state, key)
}
