// get: the part of the memory in which the key's path stands.
ghost use Rattle.std.specs.Prelude.{◌≡◌, true, ◌+◌, ◌*◌, ◌-◌, ◌<◌};
ghost use Rattle.rules.specs.Sound.{sound};
ghost use Rattle.rules.specs.Calls.{Get};
ghost use Rattle.rules.specs.Answers.{refusal_of};
ghost use Rattle.rules.specs.Memory.{capacity, view};
ghost use Rattle.rules.specs.Lent.{call, got_part};
ghost use Rattle.lookups.specs.Steps.{StandsAt};

use entries::path::PathPlace;
use memory::row::row_at;
use state::check::check_sound;
use types::node_addr::NodeAddr;

// Where the path that get hands back stands in the memory; no bytes where nothing is found.
pub fn get_place(state: &[u8], key: NodeAddr, time: u64) -> PathPlace
    requires { sound (capacity state.now) (view state.now) ≡ true }
    ensures { StandsAt key time state.now result.start result.end × (state.now ≡ (call state.now (Get key time)).memory) }
{
    let n = memory::head::row_count(state) as usize;
    let at = search::keys::search(state, n, key);
    match at {
        Ok(i) => {
            if entries::times::is_expired(&row_at(state, n, i), time) {
                return PathPlace::NOWHERE;
            }
            entries::path::path_place(state, n, i)
        }
        Err(_) => PathPlace::NOWHERE,
    }
}

pub fn get_unchecked<'a>(state: &'a [u8], key: NodeAddr, time: u64) -> &'a [u8]
    requires { sound (capacity state.now) (view state.now) ≡ true }
    ensures part { result.now ≡ got_part key time state.now }
    ensures left { state.now ≡ (call state.now (Get key time)).memory }
{
    let place = get_place(state, key, time);
    &state[place.range()]
}

// The number lent beside the state is the refusal, 0 if done.
#[tactic(auto, using(crate::proofs::UnsoundLookups::told))]
pub fn get<'a>(state: &'a [u8], key: NodeAddr, time: u64, refused: &mut u8) -> &'a [u8]
    ensures part { result.now ≡ got_part key time state.now }
    ensures why { refused.new ≡ refusal_of (call state.now (Get key time)).answer }
    ensures left { state.now ≡ (call state.now (Get key time)).memory }
{
    match check_sound(state) {
        Ok(()) => {
            *refused = 0;
            get_unchecked(state, key, time)
        }
        Err(refusal) => {
            *refused = u8::from(refusal);
            &state[0..0]
        }
    }
}
