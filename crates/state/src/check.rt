// Whether a lent memory is a sound state: the head first, then the rows in one pass.

ghost use Rattle.std.specs.Prelude.{◌≡◌, cond};
ghost use Rattle.types.specs.declared.refusal.Refusal.TheVariants.{UnsoundState};
ghost use Rattle.rules.specs.Sound.{sound};
ghost use Rattle.rules.specs.Memory.{capacity, view};

use crate::head::head_is_sound;
use crate::pass::rows_are_sound;
use memory::bounds::probation_bound;
use types::refusal::Refusal;

// No head is trusted: no row is read before its number is known to fit.
#[tactic(auto, using(crate::proofs::PassLaws::head_facts, crate::proofs::PassLaws::none_sound, crate::proofs::PassLaws::head_stops, crate::proofs::PassLaws::rows_decide), unfolding(rules::specs::Memory::capacity))]
pub fn is_sound(state: &[u8]) -> bool
    ensures { result ≡ sound (capacity state.now) (view state.now) }
{
    let fit = memory::head::rows_that_fit(state);
    if fit == 0 {
        return false;
    }
    let rows = fit as u64;
    let max = memory::head::max_entries(state);
    let count = memory::head::row_count(state);
    if !head_is_sound(rows, max, count) {
        return false;
    }
    let q = probation_bound(max);
    let seq = memory::head::seq(state);
    let stored = memory::head::stored_weight(state);
    rows_are_sound(state, count as usize, seq, rows - q, q, stored)
}

// Number 1, of every call but fresh. It comes before 2, 3 and 4; before it comes 6 alone, where a command or a funding's kind is read.
pub fn check_sound(state: &[u8]) -> Result<(), Refusal>
    ensures { result ≡ cond (sound (capacity state.now) (view state.now)) (Ok tt) (Err UnsoundState) }
{
    if is_sound(state) {
        Ok(())
    } else {
        Err(Refusal::UnsoundState)
    }
}
