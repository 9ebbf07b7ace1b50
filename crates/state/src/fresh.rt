// fresh: a cache of these limits, with no row.
ghost use Rattle.std.specs.Prelude.{◌≡◌};
ghost use Rattle.rules.specs.Refusals.{Fresh};
ghost use Rattle.rules.specs.Answers.{said, done};
ghost use Rattle.rules.specs.Lent.{lent};

use types::refusal::Refusal;

// Refused, the memory is untouched. What 5 asks is what a sound head asks that counts no row.
#[tactic(auto, using(crate::proofs::FreshSizes::size_said, rules::proofs::Public::fresh_refused))]
pub fn fresh(state: &mut [u8], max: u64, ttl: u64) -> Result<(), Refusal>
    ensures { (said done result ≡ (lent state.old (Fresh max ttl)).answer) × (state.new ≡ (lent state.old (Fresh max ttl)).memory) }
{
    let rows = memory::head::rows_that_fit(state);
    if !crate::head::head_is_sound(rows as u64, max, 0) {
        return Err(Refusal::BadLimits);
    }
    memory::rows::make_fresh(state, rows, max, ttl);
    Ok(())
}
