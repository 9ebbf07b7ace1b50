// A hint, placed by 01's steps, or refused by 2 or 3.
ghost use Rattle.std.specs.Prelude.{◌≡◌, true};
ghost use Rattle.rules.specs.Sound.{sound};
ghost use Rattle.rules.specs.Calls.{Call, Hinted};
ghost use Rattle.rules.specs.Answers.{said};
ghost use Rattle.rules.specs.Memory.{capacity, view_rows, view};
ghost use Rattle.rules.specs.Lent.{call};
ghost use Rattle.placement.specs.Hints.{Places, Stands};

use crate::held_key::place_held;
use crate::new_key::place_new;
use crate::operands::Hint;
use memory::row::row_at;
use memory::rows::remove_row;
use refusals::write::write_refusal;
use types::coord::Path;
use types::node_addr::NodeAddr;
use types::placed::{Funding, Placed};
use types::refusal::Refusal;

// The key's row or, where it has none, how many rows there are.
#[derive(Clone, Copy)]
pub enum KeyRow {
    At(usize),
    New(usize),
}

// 1. The key's row; an expired one is removed, and the key is new.
#[tactic(auto, using(room::proofs::RoomToFile::rises, room::proofs::RoomToFile::laid_out, crate::proofs::HeldKeys::weight_stored, crate::proofs::PlacedHints::found_inside, crate::proofs::PlacedHints::new_missing))]
fn remove_expired(state: &mut [u8], n: usize, hint: &Hint<'_>) -> KeyRow
    requires { sound (capacity state.old) (view_rows n state.old) ≡ true }
    ensures { Stands result hint.now n state.old state.new }
{
    match search::keys::search(state, n, hint.key) {
        Ok(i) if entries::times::is_expired(&row_at(state, n, i), hint.time) => {
            remove_row(state, n, i);
            KeyRow::New(n - 1)
        }
        Ok(i) => KeyRow::At(i),
        Err(_) => KeyRow::New(n),
    }
}

// A hint of one of the four calls, with the operands that such a call gives: refused by 2 or 3, or placed. A path is a thousand bytes, so
// it is lent, and copied where it is written.
#[tactic(auto, using(refusals::proofs::SoundCalls::head_there, crate::proofs::PlacedHints::rows_sound))]
pub fn place_hint(
    state: &mut [u8],
    key: NodeAddr,
    path: &Path,
    time: u64,
    ttl: u64,
    funding: Funding,
    stated: bool,
) -> Result<Placed, Refusal>
    requires { sound (capacity state.old) (view state.old) ≡ true }
    ensures { (q : Call) → Places q key path.now time ttl funding stated (view state.old) → (said Hinted result ≡ (call state.old q).answer) × (state.new ≡ (call state.old q).memory) }
{
    write_refusal(state, *path)?;
    let hint = Hint {
        key,
        path,
        time,
        ttl,
        funding,
        stated,
    };
    let n = memory::head::row_count(state) as usize;
    Ok(match remove_expired(state, n, &hint) {
        KeyRow::At(i) => place_held(state, n, i, &hint),
        KeyRow::New(rows) => place_new(state, rows, &hint),
    })
}
