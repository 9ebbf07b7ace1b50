// get_and_touch; touch, which is the same without the part; and where the part stands.
ghost use Rattle.std.specs.Prelude.{◌≡◌, Ok, true, ◌+◌, ◌*◌, ◌-◌, ◌≤◌, ◌<◌, length};
ghost use Rattle.rules.specs.Rows.{main_weight};
ghost use Rattle.rules.specs.Sound.{sound};
ghost use Rattle.rules.specs.Entries.{refresh};
ghost use Rattle.rules.specs.Lookups.{rewrite};
ghost use Rattle.rules.specs.Calls.{GetAndTouch};
ghost use Rattle.rules.specs.Answers.{numbered, refusal_of, touch_answer, touch_reply};
ghost use Rattle.rules.specs.Memory.{capacity, view_rows, view};
ghost use Rattle.rules.specs.Commands.{reply};
ghost use Rattle.rules.specs.Lent.{call, got_part};
ghost use Rattle.rules.specs.Layout.{head_size, row_size};
ghost use Rattle.lookups.specs.Steps.{touched_at, touch_says, touched_place, StandsAt};

use entries::path::PathPlace;
use memory::row::row_at;
use state::check::check_sound;
use types::node_addr::NodeAddr;
use types::refusal::Refusal;

// Row i is refreshed: last_used and expires_at are set.
#[tactic(auto, using(crate::proofs::TouchedRows::refreshed, memory::proofs::Fields::same_head))]
fn refresh_at(state: &mut [u8], n: usize, i: usize, time: u64)
    requires { (i < n) × (head_size + n * row_size ≤ length state.old) }
    ensures { view_rows n state.new ≡ rewrite (refresh time (view_rows n state.old).default_ttl) i (view_rows n state.old) }
{
    let expires = entries::times::add_times(time, memory::head::default_ttl(state));
    memory::row::set_times(state, n, i, time, expires);
}

// Row i leaves if it is expired, and is refreshed otherwise.
#[tactic(auto, using(crate::proofs::TouchedRows::touched_row))]
fn touch_at(state: &mut [u8], n: usize, i: usize, time: u64) -> Option<u64>
    requires { (i < n) × (head_size + n * row_size ≤ length state.old) × ((view_rows n state.old).stored_weight ≡ main_weight (view_rows n state.old)) }
    ensures says { result ≡ touch_says i time (view_rows n state.old) }
    ensures left { view_rows (length (touched_at i time (view_rows n state.old)).rows) state.new ≡ touched_at i time (view_rows n state.old) }
{
    let row = row_at(state, n, i);
    if entries::times::is_expired(&row, time) {
        memory::rows::remove_row(state, n, i);
        return None;
    }
    let len = row.path_len() as u64;
    refresh_at(state, n, i, time);
    Some(len)
}

// get_and_touch without the part: the length of the path found, and the memory.
pub fn touch_unchecked(state: &mut [u8], key: NodeAddr, time: u64) -> Option<u64>
    requires { sound (capacity state.old) (view state.old) ≡ true }
    ensures replied { touch_reply (Ok result) ≡ reply (call state.old (GetAndTouch key time)).answer }
    ensures answered { Ok result ≡ touch_answer (call state.old (GetAndTouch key time)).answer }
    ensures left { state.new ≡ (call state.old (GetAndTouch key time)).memory }
{
    let n = memory::head::row_count(state) as usize;
    let at = search::keys::search(state, n, key);
    match at {
        Ok(i) => touch_at(state, n, i, time),
        Err(_) => None,
    }
}

#[tactic(auto, using(crate::proofs::TouchedRows::unsound_touched))]
pub fn touch(state: &mut [u8], key: NodeAddr, time: u64) -> Result<Option<u64>, Refusal>
    ensures replied { touch_reply result ≡ reply (call state.old (GetAndTouch key time)).answer }
    ensures answered { numbered result ≡ touch_answer (call state.old (GetAndTouch key time)).answer }
    ensures left { state.new ≡ (call state.old (GetAndTouch key time)).memory }
{
    check_sound(state)?;
    Ok(touch_unchecked(state, key, time))
}

// Row i is touched; where its path then stands.
#[tactic(auto, using(crate::proofs::PathPlaces::unplaced))]
fn touch_row(state: &mut [u8], n: usize, i: usize, time: u64) -> PathPlace
    requires { (i < n) × (head_size + n * row_size ≤ length state.old) × ((view_rows n state.old).stored_weight ≡ main_weight (view_rows n state.old)) }
    ensures place { result ≡ touched_place i time (view_rows n state.old) }
    ensures left { view_rows (length (touched_at i time (view_rows n state.old)).rows) state.new ≡ touched_at i time (view_rows n state.old) }
{
    let place = entries::path::path_place(state, n, i);
    match touch_at(state, n, i, time) {
        Some(_) => place,
        None => PathPlace::NOWHERE,
    }
}

// What touch does, and where the path that get_and_touch hands back stands in the memory after it.
pub fn touch_place(state: &mut [u8], key: NodeAddr, time: u64) -> PathPlace
    requires { sound (capacity state.old) (view state.old) ≡ true }
    ensures { StandsAt key time state.new result.start result.end × (state.new ≡ (call state.old (GetAndTouch key time)).memory) }
{
    let n = memory::head::row_count(state) as usize;
    let at = search::keys::search(state, n, key);
    match at {
        Ok(i) => touch_row(state, n, i, time),
        Err(_) => PathPlace::NOWHERE,
    }
}

// The part is read from the memory after the touch. A parameter that lends a part out has no memory at exit to speak of, so
// the equation of the memory stands at touch and touch_place.
pub fn get_and_touch_unchecked<'a>(state: &'a mut [u8], key: NodeAddr, time: u64) -> &'a [u8]
    requires { sound (capacity state.old) (view state.old) ≡ true }
    ensures { result.now ≡ got_part key time (call state.old (GetAndTouch key time)).memory }
{
    let place = touch_place(state, key, time);
    let after = &state[..];
    &after[place.range()]
}

#[tactic(auto, using(crate::proofs::UnsoundLookups::told))]
pub fn get_and_touch<'a>(
    state: &'a mut [u8],
    key: NodeAddr,
    time: u64,
    refused: &mut u8,
) -> &'a [u8]
    ensures part { result.now ≡ got_part key time (call state.old (GetAndTouch key time)).memory }
    ensures why { refused.new ≡ refusal_of (call state.old (GetAndTouch key time)).answer }
{
    match check_sound(state) {
        Ok(()) => {
            *refused = 0;
            get_and_touch_unchecked(state, key, time)
        }
        Err(refusal) => {
            *refused = u8::from(refusal);
            let after = &state[..];
            &after[0..0]
        }
    }
}
